#![tactic(auto)]

// What a block must meet to be accepted and what an accepted one says: definitions (specs/), and the theorem that the listings of two accepted
// blocks are equal exactly when their contents are (proofs/). There is no code here: `columns` reads columns, `accept` is the check.
