// The reference book, its laws and the claims over it: definitions and proofs alone, but for what its questions are about.
#![tactic(auto)]

#[derive(Clone, Copy)]
pub enum Scope {
    // The book as it stands, if it is live.
    Current,
    // The book as it last was good, also while it waits for a snapshot.
    LastGood,
}
