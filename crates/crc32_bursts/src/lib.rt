// What the CRC-32 catches: definitions and proofs alone.
#![tactic(auto)]
