// The entries of section 5's boxes by the opcodes, then by the extensions under 40 to 43, then by those under 4A, and that of FFFF.
use crate::Entry;

const NONE: u8 = 0;

const RA: u8 = 1;

const RB: u8 = 2;

const BR: u8 = 3;

const RX: u8 = 4;

const N: u8 = 5;

const N1: u8 = 6;

const N12: u8 = 7;

const NI: u8 = 8;

const DSPL: u8 = 9;

const LABEL8: u8 = 10;

const ADDR: u8 = 11;

const Z8: u8 = 12;

const Z12: u8 = 13;

pub(crate) static ENTRIES: [Option<Entry>; 289] = [
    // the opcodes 00 to 0F
    Some(Entry {
        base: 0x0000,
        name: *b"LB  ",
        operands: [BR, DSPL, NONE],
    }),
    Some(Entry {
        base: 0x0000,
        name: *b"LB  ",
        operands: [BR, DSPL, NONE],
    }),
    Some(Entry {
        base: 0x0000,
        name: *b"LB  ",
        operands: [BR, DSPL, NONE],
    }),
    Some(Entry {
        base: 0x0000,
        name: *b"LB  ",
        operands: [BR, DSPL, NONE],
    }),
    Some(Entry {
        base: 0x0400,
        name: *b"DLB ",
        operands: [BR, DSPL, NONE],
    }),
    Some(Entry {
        base: 0x0400,
        name: *b"DLB ",
        operands: [BR, DSPL, NONE],
    }),
    Some(Entry {
        base: 0x0400,
        name: *b"DLB ",
        operands: [BR, DSPL, NONE],
    }),
    Some(Entry {
        base: 0x0400,
        name: *b"DLB ",
        operands: [BR, DSPL, NONE],
    }),
    Some(Entry {
        base: 0x0800,
        name: *b"STB ",
        operands: [BR, DSPL, NONE],
    }),
    Some(Entry {
        base: 0x0800,
        name: *b"STB ",
        operands: [BR, DSPL, NONE],
    }),
    Some(Entry {
        base: 0x0800,
        name: *b"STB ",
        operands: [BR, DSPL, NONE],
    }),
    Some(Entry {
        base: 0x0800,
        name: *b"STB ",
        operands: [BR, DSPL, NONE],
    }),
    Some(Entry {
        base: 0x0C00,
        name: *b"DSTB",
        operands: [BR, DSPL, NONE],
    }),
    Some(Entry {
        base: 0x0C00,
        name: *b"DSTB",
        operands: [BR, DSPL, NONE],
    }),
    Some(Entry {
        base: 0x0C00,
        name: *b"DSTB",
        operands: [BR, DSPL, NONE],
    }),
    Some(Entry {
        base: 0x0C00,
        name: *b"DSTB",
        operands: [BR, DSPL, NONE],
    }),
    // the opcodes 10 to 1F
    Some(Entry {
        base: 0x1000,
        name: *b"AB  ",
        operands: [BR, DSPL, NONE],
    }),
    Some(Entry {
        base: 0x1000,
        name: *b"AB  ",
        operands: [BR, DSPL, NONE],
    }),
    Some(Entry {
        base: 0x1000,
        name: *b"AB  ",
        operands: [BR, DSPL, NONE],
    }),
    Some(Entry {
        base: 0x1000,
        name: *b"AB  ",
        operands: [BR, DSPL, NONE],
    }),
    Some(Entry {
        base: 0x1400,
        name: *b"SBB ",
        operands: [BR, DSPL, NONE],
    }),
    Some(Entry {
        base: 0x1400,
        name: *b"SBB ",
        operands: [BR, DSPL, NONE],
    }),
    Some(Entry {
        base: 0x1400,
        name: *b"SBB ",
        operands: [BR, DSPL, NONE],
    }),
    Some(Entry {
        base: 0x1400,
        name: *b"SBB ",
        operands: [BR, DSPL, NONE],
    }),
    Some(Entry {
        base: 0x1800,
        name: *b"MB  ",
        operands: [BR, DSPL, NONE],
    }),
    Some(Entry {
        base: 0x1800,
        name: *b"MB  ",
        operands: [BR, DSPL, NONE],
    }),
    Some(Entry {
        base: 0x1800,
        name: *b"MB  ",
        operands: [BR, DSPL, NONE],
    }),
    Some(Entry {
        base: 0x1800,
        name: *b"MB  ",
        operands: [BR, DSPL, NONE],
    }),
    Some(Entry {
        base: 0x1C00,
        name: *b"DB  ",
        operands: [BR, DSPL, NONE],
    }),
    Some(Entry {
        base: 0x1C00,
        name: *b"DB  ",
        operands: [BR, DSPL, NONE],
    }),
    Some(Entry {
        base: 0x1C00,
        name: *b"DB  ",
        operands: [BR, DSPL, NONE],
    }),
    Some(Entry {
        base: 0x1C00,
        name: *b"DB  ",
        operands: [BR, DSPL, NONE],
    }),
    // the opcodes 20 to 2F
    Some(Entry {
        base: 0x2000,
        name: *b"FAB ",
        operands: [BR, DSPL, NONE],
    }),
    Some(Entry {
        base: 0x2000,
        name: *b"FAB ",
        operands: [BR, DSPL, NONE],
    }),
    Some(Entry {
        base: 0x2000,
        name: *b"FAB ",
        operands: [BR, DSPL, NONE],
    }),
    Some(Entry {
        base: 0x2000,
        name: *b"FAB ",
        operands: [BR, DSPL, NONE],
    }),
    Some(Entry {
        base: 0x2400,
        name: *b"FSB ",
        operands: [BR, DSPL, NONE],
    }),
    Some(Entry {
        base: 0x2400,
        name: *b"FSB ",
        operands: [BR, DSPL, NONE],
    }),
    Some(Entry {
        base: 0x2400,
        name: *b"FSB ",
        operands: [BR, DSPL, NONE],
    }),
    Some(Entry {
        base: 0x2400,
        name: *b"FSB ",
        operands: [BR, DSPL, NONE],
    }),
    Some(Entry {
        base: 0x2800,
        name: *b"FMB ",
        operands: [BR, DSPL, NONE],
    }),
    Some(Entry {
        base: 0x2800,
        name: *b"FMB ",
        operands: [BR, DSPL, NONE],
    }),
    Some(Entry {
        base: 0x2800,
        name: *b"FMB ",
        operands: [BR, DSPL, NONE],
    }),
    Some(Entry {
        base: 0x2800,
        name: *b"FMB ",
        operands: [BR, DSPL, NONE],
    }),
    Some(Entry {
        base: 0x2C00,
        name: *b"FDB ",
        operands: [BR, DSPL, NONE],
    }),
    Some(Entry {
        base: 0x2C00,
        name: *b"FDB ",
        operands: [BR, DSPL, NONE],
    }),
    Some(Entry {
        base: 0x2C00,
        name: *b"FDB ",
        operands: [BR, DSPL, NONE],
    }),
    Some(Entry {
        base: 0x2C00,
        name: *b"FDB ",
        operands: [BR, DSPL, NONE],
    }),
    // the opcodes 30 to 3F
    Some(Entry {
        base: 0x3000,
        name: *b"ORB ",
        operands: [BR, DSPL, NONE],
    }),
    Some(Entry {
        base: 0x3000,
        name: *b"ORB ",
        operands: [BR, DSPL, NONE],
    }),
    Some(Entry {
        base: 0x3000,
        name: *b"ORB ",
        operands: [BR, DSPL, NONE],
    }),
    Some(Entry {
        base: 0x3000,
        name: *b"ORB ",
        operands: [BR, DSPL, NONE],
    }),
    Some(Entry {
        base: 0x3400,
        name: *b"ANDB",
        operands: [BR, DSPL, NONE],
    }),
    Some(Entry {
        base: 0x3400,
        name: *b"ANDB",
        operands: [BR, DSPL, NONE],
    }),
    Some(Entry {
        base: 0x3400,
        name: *b"ANDB",
        operands: [BR, DSPL, NONE],
    }),
    Some(Entry {
        base: 0x3400,
        name: *b"ANDB",
        operands: [BR, DSPL, NONE],
    }),
    Some(Entry {
        base: 0x3800,
        name: *b"CB  ",
        operands: [BR, DSPL, NONE],
    }),
    Some(Entry {
        base: 0x3800,
        name: *b"CB  ",
        operands: [BR, DSPL, NONE],
    }),
    Some(Entry {
        base: 0x3800,
        name: *b"CB  ",
        operands: [BR, DSPL, NONE],
    }),
    Some(Entry {
        base: 0x3800,
        name: *b"CB  ",
        operands: [BR, DSPL, NONE],
    }),
    Some(Entry {
        base: 0x3C00,
        name: *b"FCB ",
        operands: [BR, DSPL, NONE],
    }),
    Some(Entry {
        base: 0x3C00,
        name: *b"FCB ",
        operands: [BR, DSPL, NONE],
    }),
    Some(Entry {
        base: 0x3C00,
        name: *b"FCB ",
        operands: [BR, DSPL, NONE],
    }),
    Some(Entry {
        base: 0x3C00,
        name: *b"FCB ",
        operands: [BR, DSPL, NONE],
    }),
    // the opcodes 40 to 4F
    Some(Entry {
        base: 0x4000,
        name: *b"LBX ",
        operands: [BR, RX, NONE],
    }),
    Some(Entry {
        base: 0x4000,
        name: *b"LBX ",
        operands: [BR, RX, NONE],
    }),
    Some(Entry {
        base: 0x4000,
        name: *b"LBX ",
        operands: [BR, RX, NONE],
    }),
    Some(Entry {
        base: 0x4000,
        name: *b"LBX ",
        operands: [BR, RX, NONE],
    }),
    None, // 4400
    None, // 4500
    None, // 4600
    None, // 4700
    Some(Entry {
        base: 0x4800,
        name: *b"XIO ",
        operands: [RA, ADDR, RX],
    }),
    None, // 4900
    None, // 4A00
    None, // 4B00
    None, // 4C00
    None, // 4D00
    None, // 4E00
    None, // 4F00
    // the opcodes 50 to 5F
    Some(Entry {
        base: 0x5000,
        name: *b"SB  ",
        operands: [N, ADDR, RX],
    }),
    Some(Entry {
        base: 0x5100,
        name: *b"SBR ",
        operands: [N, RB, NONE],
    }),
    Some(Entry {
        base: 0x5200,
        name: *b"SBI ",
        operands: [N, ADDR, RX],
    }),
    Some(Entry {
        base: 0x5300,
        name: *b"RB  ",
        operands: [N, ADDR, RX],
    }),
    Some(Entry {
        base: 0x5400,
        name: *b"RBR ",
        operands: [N, RB, NONE],
    }),
    Some(Entry {
        base: 0x5500,
        name: *b"RBI ",
        operands: [N, ADDR, RX],
    }),
    Some(Entry {
        base: 0x5600,
        name: *b"TB  ",
        operands: [N, ADDR, RX],
    }),
    Some(Entry {
        base: 0x5700,
        name: *b"TBR ",
        operands: [N, RB, NONE],
    }),
    Some(Entry {
        base: 0x5800,
        name: *b"TBI ",
        operands: [N, ADDR, RX],
    }),
    Some(Entry {
        base: 0x5900,
        name: *b"TSB ",
        operands: [N, ADDR, RX],
    }),
    Some(Entry {
        base: 0x5A00,
        name: *b"SVBR",
        operands: [RA, RB, NONE],
    }),
    None, // 5B00
    Some(Entry {
        base: 0x5C00,
        name: *b"RVBR",
        operands: [RA, RB, NONE],
    }),
    None, // 5D00
    Some(Entry {
        base: 0x5E00,
        name: *b"TVBR",
        operands: [RA, RB, NONE],
    }),
    None, // 5F00
    // the opcodes 60 to 6F
    Some(Entry {
        base: 0x6000,
        name: *b"SLL ",
        operands: [RB, N1, NONE],
    }),
    Some(Entry {
        base: 0x6100,
        name: *b"SRL ",
        operands: [RB, N1, NONE],
    }),
    Some(Entry {
        base: 0x6200,
        name: *b"SRA ",
        operands: [RB, N1, NONE],
    }),
    Some(Entry {
        base: 0x6300,
        name: *b"SLC ",
        operands: [RB, N1, NONE],
    }),
    None, // 6400
    Some(Entry {
        base: 0x6500,
        name: *b"DSLL",
        operands: [RB, N1, NONE],
    }),
    Some(Entry {
        base: 0x6600,
        name: *b"DSRL",
        operands: [RB, N1, NONE],
    }),
    Some(Entry {
        base: 0x6700,
        name: *b"DSRA",
        operands: [RB, N1, NONE],
    }),
    Some(Entry {
        base: 0x6800,
        name: *b"DSLC",
        operands: [RB, N1, NONE],
    }),
    None, // 6900
    Some(Entry {
        base: 0x6A00,
        name: *b"SLR ",
        operands: [RA, RB, NONE],
    }),
    Some(Entry {
        base: 0x6B00,
        name: *b"SAR ",
        operands: [RA, RB, NONE],
    }),
    Some(Entry {
        base: 0x6C00,
        name: *b"SCR ",
        operands: [RA, RB, NONE],
    }),
    Some(Entry {
        base: 0x6D00,
        name: *b"DSLR",
        operands: [RA, RB, NONE],
    }),
    Some(Entry {
        base: 0x6E00,
        name: *b"DSAR",
        operands: [RA, RB, NONE],
    }),
    Some(Entry {
        base: 0x6F00,
        name: *b"DSCR",
        operands: [RA, RB, NONE],
    }),
    // the opcodes 70 to 7F
    Some(Entry {
        base: 0x7000,
        name: *b"JC  ",
        operands: [N, ADDR, RX],
    }),
    Some(Entry {
        base: 0x7100,
        name: *b"JCI ",
        operands: [N, ADDR, RX],
    }),
    Some(Entry {
        base: 0x7200,
        name: *b"JS  ",
        operands: [RA, ADDR, RX],
    }),
    Some(Entry {
        base: 0x7300,
        name: *b"SOJ ",
        operands: [RA, ADDR, RX],
    }),
    Some(Entry {
        base: 0x7400,
        name: *b"BR  ",
        operands: [LABEL8, NONE, NONE],
    }),
    Some(Entry {
        base: 0x7500,
        name: *b"BEZ ",
        operands: [LABEL8, NONE, NONE],
    }),
    Some(Entry {
        base: 0x7600,
        name: *b"BLT ",
        operands: [LABEL8, NONE, NONE],
    }),
    Some(Entry {
        base: 0x7700,
        name: *b"BEX ",
        operands: [Z8, N12, NONE],
    }),
    Some(Entry {
        base: 0x7800,
        name: *b"BLE ",
        operands: [LABEL8, NONE, NONE],
    }),
    Some(Entry {
        base: 0x7900,
        name: *b"BGT ",
        operands: [LABEL8, NONE, NONE],
    }),
    Some(Entry {
        base: 0x7A00,
        name: *b"BNZ ",
        operands: [LABEL8, NONE, NONE],
    }),
    Some(Entry {
        base: 0x7B00,
        name: *b"BGE ",
        operands: [LABEL8, NONE, NONE],
    }),
    Some(Entry {
        base: 0x7C00,
        name: *b"LSTI",
        operands: [Z8, ADDR, RX],
    }),
    Some(Entry {
        base: 0x7D00,
        name: *b"LST ",
        operands: [Z8, ADDR, RX],
    }),
    Some(Entry {
        base: 0x7E00,
        name: *b"SJS ",
        operands: [RA, ADDR, RX],
    }),
    Some(Entry {
        base: 0x7F00,
        name: *b"URS ",
        operands: [RA, Z12, NONE],
    }),
    // the opcodes 80 to 8F
    Some(Entry {
        base: 0x8000,
        name: *b"L   ",
        operands: [RA, ADDR, RX],
    }),
    Some(Entry {
        base: 0x8100,
        name: *b"LR  ",
        operands: [RA, RB, NONE],
    }),
    Some(Entry {
        base: 0x8200,
        name: *b"LISP",
        operands: [RA, NI, NONE],
    }),
    Some(Entry {
        base: 0x8300,
        name: *b"LISN",
        operands: [RA, NI, NONE],
    }),
    Some(Entry {
        base: 0x8400,
        name: *b"LI  ",
        operands: [RA, ADDR, RX],
    }),
    Some(Entry {
        base: 0x8500,
        name: *b"LIM ",
        operands: [RA, ADDR, RX],
    }),
    Some(Entry {
        base: 0x8600,
        name: *b"DL  ",
        operands: [RA, ADDR, RX],
    }),
    Some(Entry {
        base: 0x8700,
        name: *b"DLR ",
        operands: [RA, RB, NONE],
    }),
    Some(Entry {
        base: 0x8800,
        name: *b"DLI ",
        operands: [RA, ADDR, RX],
    }),
    Some(Entry {
        base: 0x8900,
        name: *b"LM  ",
        operands: [N, ADDR, RX],
    }),
    Some(Entry {
        base: 0x8A00,
        name: *b"EFL ",
        operands: [RA, ADDR, RX],
    }),
    Some(Entry {
        base: 0x8B00,
        name: *b"LUB ",
        operands: [RA, ADDR, RX],
    }),
    Some(Entry {
        base: 0x8C00,
        name: *b"LLB ",
        operands: [RA, ADDR, RX],
    }),
    Some(Entry {
        base: 0x8D00,
        name: *b"LUBI",
        operands: [RA, ADDR, RX],
    }),
    Some(Entry {
        base: 0x8E00,
        name: *b"LLBI",
        operands: [RA, ADDR, RX],
    }),
    Some(Entry {
        base: 0x8F00,
        name: *b"POPM",
        operands: [RA, RB, NONE],
    }),
    // the opcodes 90 to 9F
    Some(Entry {
        base: 0x9000,
        name: *b"ST  ",
        operands: [RA, ADDR, RX],
    }),
    Some(Entry {
        base: 0x9100,
        name: *b"STC ",
        operands: [N, ADDR, RX],
    }),
    Some(Entry {
        base: 0x9200,
        name: *b"STCI",
        operands: [N, ADDR, RX],
    }),
    Some(Entry {
        base: 0x9300,
        name: *b"MOV ",
        operands: [RA, RB, NONE],
    }),
    Some(Entry {
        base: 0x9400,
        name: *b"STI ",
        operands: [RA, ADDR, RX],
    }),
    None, // 9500
    Some(Entry {
        base: 0x9600,
        name: *b"DST ",
        operands: [RA, ADDR, RX],
    }),
    Some(Entry {
        base: 0x9700,
        name: *b"SRM ",
        operands: [RA, ADDR, RX],
    }),
    Some(Entry {
        base: 0x9800,
        name: *b"DSTI",
        operands: [RA, ADDR, RX],
    }),
    Some(Entry {
        base: 0x9900,
        name: *b"STM ",
        operands: [N, ADDR, RX],
    }),
    Some(Entry {
        base: 0x9A00,
        name: *b"EFST",
        operands: [RA, ADDR, RX],
    }),
    Some(Entry {
        base: 0x9B00,
        name: *b"STUB",
        operands: [RA, ADDR, RX],
    }),
    Some(Entry {
        base: 0x9C00,
        name: *b"STLB",
        operands: [RA, ADDR, RX],
    }),
    Some(Entry {
        base: 0x9D00,
        name: *b"SUBI",
        operands: [RA, ADDR, RX],
    }),
    Some(Entry {
        base: 0x9E00,
        name: *b"SLBI",
        operands: [RA, ADDR, RX],
    }),
    Some(Entry {
        base: 0x9F00,
        name: *b"PSHM",
        operands: [RA, RB, NONE],
    }),
    // the opcodes A0 to AF
    Some(Entry {
        base: 0xA000,
        name: *b"A   ",
        operands: [RA, ADDR, RX],
    }),
    Some(Entry {
        base: 0xA100,
        name: *b"AR  ",
        operands: [RA, RB, NONE],
    }),
    Some(Entry {
        base: 0xA200,
        name: *b"AISP",
        operands: [RA, NI, NONE],
    }),
    Some(Entry {
        base: 0xA300,
        name: *b"INCM",
        operands: [N1, ADDR, RX],
    }),
    Some(Entry {
        base: 0xA400,
        name: *b"ABS ",
        operands: [RA, RB, NONE],
    }),
    Some(Entry {
        base: 0xA500,
        name: *b"DABS",
        operands: [RA, RB, NONE],
    }),
    Some(Entry {
        base: 0xA600,
        name: *b"DA  ",
        operands: [RA, ADDR, RX],
    }),
    Some(Entry {
        base: 0xA700,
        name: *b"DAR ",
        operands: [RA, RB, NONE],
    }),
    Some(Entry {
        base: 0xA800,
        name: *b"FA  ",
        operands: [RA, ADDR, RX],
    }),
    Some(Entry {
        base: 0xA900,
        name: *b"FAR ",
        operands: [RA, RB, NONE],
    }),
    Some(Entry {
        base: 0xAA00,
        name: *b"EFA ",
        operands: [RA, ADDR, RX],
    }),
    Some(Entry {
        base: 0xAB00,
        name: *b"EFAR",
        operands: [RA, RB, NONE],
    }),
    Some(Entry {
        base: 0xAC00,
        name: *b"FABS",
        operands: [RA, RB, NONE],
    }),
    None, // AD00
    None, // AE00
    None, // AF00
    // the opcodes B0 to BF
    Some(Entry {
        base: 0xB000,
        name: *b"S   ",
        operands: [RA, ADDR, RX],
    }),
    Some(Entry {
        base: 0xB100,
        name: *b"SR  ",
        operands: [RA, RB, NONE],
    }),
    Some(Entry {
        base: 0xB200,
        name: *b"SISP",
        operands: [RA, NI, NONE],
    }),
    Some(Entry {
        base: 0xB300,
        name: *b"DECM",
        operands: [N1, ADDR, RX],
    }),
    Some(Entry {
        base: 0xB400,
        name: *b"NEG ",
        operands: [RA, RB, NONE],
    }),
    Some(Entry {
        base: 0xB500,
        name: *b"DNEG",
        operands: [RA, RB, NONE],
    }),
    Some(Entry {
        base: 0xB600,
        name: *b"DS  ",
        operands: [RA, ADDR, RX],
    }),
    Some(Entry {
        base: 0xB700,
        name: *b"DSR ",
        operands: [RA, RB, NONE],
    }),
    Some(Entry {
        base: 0xB800,
        name: *b"FS  ",
        operands: [RA, ADDR, RX],
    }),
    Some(Entry {
        base: 0xB900,
        name: *b"FSR ",
        operands: [RA, RB, NONE],
    }),
    Some(Entry {
        base: 0xBA00,
        name: *b"EFS ",
        operands: [RA, ADDR, RX],
    }),
    Some(Entry {
        base: 0xBB00,
        name: *b"EFSR",
        operands: [RA, RB, NONE],
    }),
    Some(Entry {
        base: 0xBC00,
        name: *b"FNEG",
        operands: [RA, RB, NONE],
    }),
    None, // BD00
    None, // BE00
    None, // BF00
    // the opcodes C0 to CF
    Some(Entry {
        base: 0xC000,
        name: *b"MS  ",
        operands: [RA, ADDR, RX],
    }),
    Some(Entry {
        base: 0xC100,
        name: *b"MSR ",
        operands: [RA, RB, NONE],
    }),
    Some(Entry {
        base: 0xC200,
        name: *b"MISP",
        operands: [RA, NI, NONE],
    }),
    Some(Entry {
        base: 0xC300,
        name: *b"MISN",
        operands: [RA, NI, NONE],
    }),
    Some(Entry {
        base: 0xC400,
        name: *b"M   ",
        operands: [RA, ADDR, RX],
    }),
    Some(Entry {
        base: 0xC500,
        name: *b"MR  ",
        operands: [RA, RB, NONE],
    }),
    Some(Entry {
        base: 0xC600,
        name: *b"DM  ",
        operands: [RA, ADDR, RX],
    }),
    Some(Entry {
        base: 0xC700,
        name: *b"DMR ",
        operands: [RA, RB, NONE],
    }),
    Some(Entry {
        base: 0xC800,
        name: *b"FM  ",
        operands: [RA, ADDR, RX],
    }),
    Some(Entry {
        base: 0xC900,
        name: *b"FMR ",
        operands: [RA, RB, NONE],
    }),
    Some(Entry {
        base: 0xCA00,
        name: *b"EFM ",
        operands: [RA, ADDR, RX],
    }),
    Some(Entry {
        base: 0xCB00,
        name: *b"EFMR",
        operands: [RA, RB, NONE],
    }),
    None, // CC00
    None, // CD00
    None, // CE00
    None, // CF00
    // the opcodes D0 to DF
    Some(Entry {
        base: 0xD000,
        name: *b"DV  ",
        operands: [RA, ADDR, RX],
    }),
    Some(Entry {
        base: 0xD100,
        name: *b"DVR ",
        operands: [RA, RB, NONE],
    }),
    Some(Entry {
        base: 0xD200,
        name: *b"DISP",
        operands: [RA, NI, NONE],
    }),
    Some(Entry {
        base: 0xD300,
        name: *b"DISN",
        operands: [RA, NI, NONE],
    }),
    Some(Entry {
        base: 0xD400,
        name: *b"D   ",
        operands: [RA, ADDR, RX],
    }),
    Some(Entry {
        base: 0xD500,
        name: *b"DR  ",
        operands: [RA, RB, NONE],
    }),
    Some(Entry {
        base: 0xD600,
        name: *b"DD  ",
        operands: [RA, ADDR, RX],
    }),
    Some(Entry {
        base: 0xD700,
        name: *b"DDR ",
        operands: [RA, RB, NONE],
    }),
    Some(Entry {
        base: 0xD800,
        name: *b"FD  ",
        operands: [RA, ADDR, RX],
    }),
    Some(Entry {
        base: 0xD900,
        name: *b"FDR ",
        operands: [RA, RB, NONE],
    }),
    Some(Entry {
        base: 0xDA00,
        name: *b"EFD ",
        operands: [RA, ADDR, RX],
    }),
    Some(Entry {
        base: 0xDB00,
        name: *b"EFDR",
        operands: [RA, RB, NONE],
    }),
    None, // DC00
    None, // DD00
    None, // DE00
    None, // DF00
    // the opcodes E0 to EF
    Some(Entry {
        base: 0xE000,
        name: *b"OR  ",
        operands: [RA, ADDR, RX],
    }),
    Some(Entry {
        base: 0xE100,
        name: *b"ORR ",
        operands: [RA, RB, NONE],
    }),
    Some(Entry {
        base: 0xE200,
        name: *b"AND ",
        operands: [RA, ADDR, RX],
    }),
    Some(Entry {
        base: 0xE300,
        name: *b"ANDR",
        operands: [RA, RB, NONE],
    }),
    Some(Entry {
        base: 0xE400,
        name: *b"XOR ",
        operands: [RA, ADDR, RX],
    }),
    Some(Entry {
        base: 0xE500,
        name: *b"XORR",
        operands: [RA, RB, NONE],
    }),
    Some(Entry {
        base: 0xE600,
        name: *b"N   ",
        operands: [RA, ADDR, RX],
    }),
    Some(Entry {
        base: 0xE700,
        name: *b"NR  ",
        operands: [RA, RB, NONE],
    }),
    Some(Entry {
        base: 0xE800,
        name: *b"FIX ",
        operands: [RA, RB, NONE],
    }),
    Some(Entry {
        base: 0xE900,
        name: *b"FLT ",
        operands: [RA, RB, NONE],
    }),
    Some(Entry {
        base: 0xEA00,
        name: *b"EFIX",
        operands: [RA, RB, NONE],
    }),
    Some(Entry {
        base: 0xEB00,
        name: *b"EFLT",
        operands: [RA, RB, NONE],
    }),
    Some(Entry {
        base: 0xEC00,
        name: *b"XBR ",
        operands: [RA, Z12, NONE],
    }),
    Some(Entry {
        base: 0xED00,
        name: *b"XWR ",
        operands: [RA, RB, NONE],
    }),
    None, // EE00
    None, // EF00
    // the opcodes F0 to FF
    Some(Entry {
        base: 0xF000,
        name: *b"C   ",
        operands: [RA, ADDR, RX],
    }),
    Some(Entry {
        base: 0xF100,
        name: *b"CR  ",
        operands: [RA, RB, NONE],
    }),
    Some(Entry {
        base: 0xF200,
        name: *b"CISP",
        operands: [RA, NI, NONE],
    }),
    Some(Entry {
        base: 0xF300,
        name: *b"CISN",
        operands: [RA, NI, NONE],
    }),
    Some(Entry {
        base: 0xF400,
        name: *b"CBL ",
        operands: [RA, ADDR, RX],
    }),
    None, // F500
    Some(Entry {
        base: 0xF600,
        name: *b"DC  ",
        operands: [RA, ADDR, RX],
    }),
    Some(Entry {
        base: 0xF700,
        name: *b"DCR ",
        operands: [RA, RB, NONE],
    }),
    Some(Entry {
        base: 0xF800,
        name: *b"FC  ",
        operands: [RA, ADDR, RX],
    }),
    Some(Entry {
        base: 0xF900,
        name: *b"FCR ",
        operands: [RA, RB, NONE],
    }),
    Some(Entry {
        base: 0xFA00,
        name: *b"EFC ",
        operands: [RA, ADDR, RX],
    }),
    Some(Entry {
        base: 0xFB00,
        name: *b"EFCR",
        operands: [RA, RB, NONE],
    }),
    None, // FC00
    None, // FD00
    None, // FE00
    Some(Entry {
        base: 0xFF00,
        name: *b"NOP ",
        operands: [NONE, NONE, NONE],
    }),
    // the extensions under 40 to 43
    Some(Entry {
        base: 0x4000,
        name: *b"LBX ",
        operands: [BR, RX, NONE],
    }),
    Some(Entry {
        base: 0x4010,
        name: *b"DLBX",
        operands: [BR, RX, NONE],
    }),
    Some(Entry {
        base: 0x4020,
        name: *b"STBX",
        operands: [BR, RX, NONE],
    }),
    Some(Entry {
        base: 0x4030,
        name: *b"DSTX",
        operands: [BR, RX, NONE],
    }),
    Some(Entry {
        base: 0x4040,
        name: *b"ABX ",
        operands: [BR, RX, NONE],
    }),
    Some(Entry {
        base: 0x4050,
        name: *b"SBBX",
        operands: [BR, RX, NONE],
    }),
    Some(Entry {
        base: 0x4060,
        name: *b"MBX ",
        operands: [BR, RX, NONE],
    }),
    Some(Entry {
        base: 0x4070,
        name: *b"DBX ",
        operands: [BR, RX, NONE],
    }),
    Some(Entry {
        base: 0x4080,
        name: *b"FABX",
        operands: [BR, RX, NONE],
    }),
    Some(Entry {
        base: 0x4090,
        name: *b"FSBX",
        operands: [BR, RX, NONE],
    }),
    Some(Entry {
        base: 0x40A0,
        name: *b"FMBX",
        operands: [BR, RX, NONE],
    }),
    Some(Entry {
        base: 0x40B0,
        name: *b"FDBX",
        operands: [BR, RX, NONE],
    }),
    Some(Entry {
        base: 0x40C0,
        name: *b"CBX ",
        operands: [BR, RX, NONE],
    }),
    Some(Entry {
        base: 0x40D0,
        name: *b"FCBX",
        operands: [BR, RX, NONE],
    }),
    Some(Entry {
        base: 0x40E0,
        name: *b"ANDX",
        operands: [BR, RX, NONE],
    }),
    Some(Entry {
        base: 0x40F0,
        name: *b"ORBX",
        operands: [BR, RX, NONE],
    }),
    // the extensions under 4A
    None, // 4A00
    Some(Entry {
        base: 0x4A01,
        name: *b"AIM ",
        operands: [RA, ADDR, NONE],
    }),
    Some(Entry {
        base: 0x4A02,
        name: *b"SIM ",
        operands: [RA, ADDR, NONE],
    }),
    Some(Entry {
        base: 0x4A03,
        name: *b"MIM ",
        operands: [RA, ADDR, NONE],
    }),
    Some(Entry {
        base: 0x4A04,
        name: *b"MSIM",
        operands: [RA, ADDR, NONE],
    }),
    Some(Entry {
        base: 0x4A05,
        name: *b"DIM ",
        operands: [RA, ADDR, NONE],
    }),
    Some(Entry {
        base: 0x4A06,
        name: *b"DVIM",
        operands: [RA, ADDR, NONE],
    }),
    Some(Entry {
        base: 0x4A07,
        name: *b"ANDM",
        operands: [RA, ADDR, NONE],
    }),
    Some(Entry {
        base: 0x4A08,
        name: *b"ORIM",
        operands: [RA, ADDR, NONE],
    }),
    Some(Entry {
        base: 0x4A09,
        name: *b"XORM",
        operands: [RA, ADDR, NONE],
    }),
    Some(Entry {
        base: 0x4A0A,
        name: *b"CIM ",
        operands: [RA, ADDR, NONE],
    }),
    Some(Entry {
        base: 0x4A0B,
        name: *b"NIM ",
        operands: [RA, ADDR, NONE],
    }),
    None, // 4A0C
    None, // 4A0D
    None, // 4A0E
    None, // 4A0F
    // FFFF
    Some(Entry {
        base: 0xFFFF,
        name: *b"BPT ",
        operands: [NONE, NONE, NONE],
    }),
];
