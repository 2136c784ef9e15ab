//! What a command is: the steps that it takes in order, as a value of the specs.
//!
//! A `Plan` says what a command tries, which files it reads and stores, why it stops at a step, and which text it has at
//! the end. From that one value follows what the command refuses, when it is done, which calls it makes on the shelf and
//! what it leaves of the files. The laws in proofs/Public.antt say so once, for every plan. The room has no code.
#![tactic(auto)]
