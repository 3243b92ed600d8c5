// The 1750A as an instance of the machine: definitions in specs/, known instructions and the isolation theorem in proofs/. No code.
#![tactic(auto)]
