// The form numbers of all instructions: the form (4,096 times the length in words, plus 256 times the addressing mode, plus the paragraph of section 5); plus 65,536
// times the words that it reads, plus 4 times those that it writes, plus 0x10 for URS and 0x20 for SJS; plus 0x80_0000 times its rule. The form 0 is illegal.

// The form number of each opcode. Paragraph 0 leaves the operation to the bits after the opcode.
pub(crate) const TABLE: [u32; 256] = [
    0x00811226, // 00 LB
    0x00811226, // 01 LB
    0x00811226, // 02 LB
    0x00811226, // 03 LB
    0x01021227, // 04 DLB
    0x01021227, // 05 DLB
    0x01021227, // 06 DLB
    0x01021227, // 07 DLB
    0x0184122D, // 08 STB
    0x0184122D, // 09 STB
    0x0184122D, // 0A STB
    0x0184122D, // 0B STB
    0x02881230, // 0C DSTB
    0x02881230, // 0D DSTB
    0x02881230, // 0E DSTB
    0x02881230, // 0F DSTB
    0x00811237, // 10 AB
    0x00811237, // 11 AB
    0x00811237, // 12 AB
    0x00811237, // 13 AB
    0x0081123F, // 14 SBB
    0x0081123F, // 15 SBB
    0x0081123F, // 16 SBB
    0x0081123F, // 17 SBB
    0x05011248, // 18 MB
    0x05011248, // 19 MB
    0x05011248, // 1A MB
    0x05011248, // 1B MB
    0x0501124D, // 1C DB
    0x0501124D, // 1D DB
    0x0501124D, // 1E DB
    0x0501124D, // 1F DB
    0x0502123C, // 20 FAB
    0x0502123C, // 21 FAB
    0x0502123C, // 22 FAB
    0x0502123C, // 23 FAB
    0x05021244, // 24 FSB
    0x05021244, // 25 FSB
    0x05021244, // 26 FSB
    0x05021244, // 27 FSB
    0x0502124A, // 28 FMB
    0x0502124A, // 29 FMB
    0x0502124A, // 2A FMB
    0x0502124A, // 2B FMB
    0x0502124F, // 2C FDB
    0x0502124F, // 2D FDB
    0x0502124F, // 2E FDB
    0x0502124F, // 2F FDB
    0x00811251, // 30 ORB
    0x00811251, // 31 ORB
    0x00811251, // 32 ORB
    0x00811251, // 33 ORB
    0x00811252, // 34 ANDB
    0x00811252, // 35 ANDB
    0x00811252, // 36 ANDB
    0x00811252, // 37 ANDB
    0x0501125B, // 38 CB
    0x0501125B, // 39 CB
    0x0501125B, // 3A CB
    0x0501125B, // 3B CB
    0x0502125E, // 3C FCB
    0x0502125E, // 3D FCB
    0x0502125E, // 3E FCB
    0x0502125E, // 3F FCB
    0x05001300, // 40 base relative-indexed
    0x05001300, // 41 base relative-indexed
    0x05001300, // 42 base relative-indexed
    0x05001300, // 43 base relative-indexed
    0x05000000, // 44
    0x05000000, // 45
    0x05000000, // 46
    0x05000000, // 47
    0x03002801, // 48 XIO
    0x05000000, // 49
    0x05002900, // 4A immediate long
    0x05000000, // 4B
    0x05000000, // 4C
    0x05000000, // 4D
    0x05000000, // 4E
    0x05000000, // 4F
    0x05052603, // 50 SB
    0x05001103, // 51 SBR
    0x05052703, // 52 SBI
    0x05052604, // 53 RB
    0x05001104, // 54 RBR
    0x05052704, // 55 RBI
    0x05012605, // 56 TB
    0x05001105, // 57 TBR
    0x05012705, // 58 TBI
    0x05052606, // 59 TSB
    0x05001107, // 5A SVBR
    0x05000000, // 5B
    0x05001108, // 5C RVBR
    0x05000000, // 5D
    0x05001109, // 5E TVBR
    0x05000000, // 5F
    0x0500110A, // 60 SLL
    0x0500110B, // 61 SRL
    0x0500110C, // 62 SRA
    0x0500110D, // 63 SLC
    0x05000000, // 64
    0x0500110E, // 65 DSLL
    0x0500110F, // 66 DSRL
    0x05001110, // 67 DSRA
    0x05001111, // 68 DSLC
    0x05000000, // 69
    0x05001112, // 6A SLR
    0x05001113, // 6B SAR
    0x05001114, // 6C SCR
    0x05001115, // 6D DSLR
    0x05001116, // 6E DSAR
    0x05001117, // 6F DSCR
    0x02002618, // 70 JC
    0x02002718, // 71 JCI
    0x05002619, // 72 JS
    0x0500261A, // 73 SOJ
    0x02001A1B, // 74 BR
    0x02001A1C, // 75 BEZ
    0x02001A1D, // 76 BLT
    0x0380101E, // 77 BEX
    0x02001A1F, // 78 BLE
    0x02001A20, // 79 BGT
    0x02001A21, // 7A BNZ
    0x02001A22, // 7B BGE
    0x04032723, // 7C LSTI
    0x04032623, // 7D LST
    0x05242624, // 7E SJS
    0x05111025, // 7F URS
    0x00812626, // 80 L
    0x00801126, // 81 LR
    0x00801426, // 82 LISP
    0x00801526, // 83 LISN
    0x00812726, // 84 LI
    0x00802826, // 85 LIM
    0x01022627, // 86 DL
    0x01001127, // 87 DLR
    0x01022727, // 88 DLI
    0x04802628, // 89 LM
    0x05032629, // 8A EFL
    0x0501262A, // 8B LUB
    0x0501262B, // 8C LLB
    0x0501272A, // 8D LUBI
    0x0501272B, // 8E LLBI
    0x0480102C, // 8F POPM
    0x0184262D, // 90 ST
    0x0184262E, // 91 STC
    0x0184272E, // 92 STCI
    0x0480102F, // 93 MOV
    0x0184272D, // 94 STI
    0x05000000, // 95
    0x02882630, // 96 DST
    0x05052631, // 97 SRM
    0x02882730, // 98 DSTI
    0x04802632, // 99 STM
    0x050C2633, // 9A EFST
    0x05052634, // 9B STUB
    0x05052635, // 9C STLB
    0x05052734, // 9D SUBI
    0x05052735, // 9E SLBI
    0x04801036, // 9F PSHM
    0x00812637, // A0 A
    0x00801137, // A1 AR
    0x00801437, // A2 AISP
    0x05052638, // A3 INCM
    0x05001139, // A4 ABS
    0x0500113A, // A5 DABS
    0x0102263B, // A6 DA
    0x0100113B, // A7 DAR
    0x0502263C, // A8 FA
    0x0500113C, // A9 FAR
    0x0503263D, // AA EFA
    0x0500113D, // AB EFAR
    0x0500113E, // AC FABS
    0x05000000, // AD
    0x05000000, // AE
    0x05000000, // AF
    0x0081263F, // B0 S
    0x0080113F, // B1 SR
    0x0080143F, // B2 SISP
    0x05052640, // B3 DECM
    0x05001141, // B4 NEG
    0x05001142, // B5 DNEG
    0x01022643, // B6 DS
    0x01001143, // B7 DSR
    0x05022644, // B8 FS
    0x05001144, // B9 FSR
    0x05032645, // BA EFS
    0x05001145, // BB EFSR
    0x05001146, // BC FNEG
    0x05000000, // BD
    0x05000000, // BE
    0x05000000, // BF
    0x05012647, // C0 MS
    0x05001147, // C1 MSR
    0x05001447, // C2 MISP
    0x05001547, // C3 MISN
    0x05012648, // C4 M
    0x05001148, // C5 MR
    0x05022649, // C6 DM
    0x05001149, // C7 DMR
    0x0502264A, // C8 FM
    0x0500114A, // C9 FMR
    0x0503264B, // CA EFM
    0x0500114B, // CB EFMR
    0x05000000, // CC
    0x05000000, // CD
    0x05000000, // CE
    0x05000000, // CF
    0x0501264C, // D0 DV
    0x0500114C, // D1 DVR
    0x0500144C, // D2 DISP
    0x0500154C, // D3 DISN
    0x0501264D, // D4 D
    0x0500114D, // D5 DR
    0x0502264E, // D6 DD
    0x0500114E, // D7 DDR
    0x0502264F, // D8 FD
    0x0500114F, // D9 FDR
    0x05032650, // DA EFD
    0x05001150, // DB EFDR
    0x05000000, // DC
    0x05000000, // DD
    0x05000000, // DE
    0x05000000, // DF
    0x00812651, // E0 OR
    0x00801151, // E1 ORR
    0x00812652, // E2 AND
    0x00801152, // E3 ANDR
    0x05012653, // E4 XOR
    0x05001153, // E5 XORR
    0x05012654, // E6 N
    0x05001154, // E7 NR
    0x05001155, // E8 FIX
    0x05001156, // E9 FLT
    0x05001157, // EA EFIX
    0x05001158, // EB EFLT
    0x05001059, // EC XBR
    0x0480115A, // ED XWR
    0x05000000, // EE
    0x05000000, // EF
    0x0501265B, // F0 C
    0x0500115B, // F1 CR
    0x0500145B, // F2 CISP
    0x0500155B, // F3 CISN
    0x0502265C, // F4 CBL
    0x05000000, // F5
    0x0502265D, // F6 DC
    0x0500115D, // F7 DCR
    0x0502265E, // F8 FC
    0x0500115E, // F9 FCR
    0x0503265F, // FA EFC
    0x0500115F, // FB EFCR
    0x05000000, // FC
    0x05000000, // FD
    0x05000000, // FE
    0x05001000, // FF NOP, BPT
];

// The form numbers under opcodes 40 to 43, by bits 8 to 11.
pub(crate) const INDEXED: [u32; 16] = [
    0x00811326, // extension 0 LBX
    0x01021327, // extension 1 DLBX
    0x0184132D, // extension 2 STBX
    0x02881330, // extension 3 DSTX
    0x00811337, // extension 4 ABX
    0x0081133F, // extension 5 SBBX
    0x05011348, // extension 6 MBX
    0x0501134D, // extension 7 DBX
    0x0502133C, // extension 8 FABX
    0x05021344, // extension 9 FSBX
    0x0502134A, // extension A FMBX
    0x0502134F, // extension B FDBX
    0x0501135B, // extension C CBX
    0x0502135E, // extension D FCBX
    0x00811352, // extension E ANDX
    0x00811351, // extension F ORBX
];

// The form numbers under opcode 4A, by bits 12 to 15.
pub(crate) const IMMEDIATE: [u32; 16] = [
    0x05000000, // extension 0
    0x00802937, // extension 1 AIM
    0x0080293F, // extension 2 SIM
    0x05002948, // extension 3 MIM
    0x05002947, // extension 4 MSIM
    0x0500294D, // extension 5 DIM
    0x0500294C, // extension 6 DVIM
    0x00802952, // extension 7 ANDM
    0x00802951, // extension 8 ORIM
    0x05002953, // extension 9 XORM
    0x0500295B, // extension A CIM
    0x05002954, // extension B NIM
    0x05000000, // extension C
    0x05000000, // extension D
    0x05000000, // extension E
    0x05000000, // extension F
];

// The form number of FF00, no operation (5.96).
pub(crate) const NOP: u32 = 0x05001060;
// The form number of FFFF, break point (5.97).
pub(crate) const BPT: u32 = 0x05001061;
// That of an illegal instruction.
pub(crate) const ILLEGAL: u32 = 0x05000000;

// What the table has for opcodes 40 to 43: base relative-indexed.
pub(crate) const UNDER_40: u32 = 0x05001300;
// What the table has for opcode 4A: immediate long.
pub(crate) const UNDER_4A: u32 = 0x05002900;
// What the table has for opcode FF: special.
pub(crate) const UNDER_FF: u32 = 0x05001000;
