//! The silo as definitions: one tenant's machine, all tenants' whole, and the laws between them.
//!
//! Nothing here runs. A layer above may rely on this: `specs/Step.antt` says what each step does,
//! `specs/Whole.antt` what a silo of many tenants holds and shows to each. Every
//! law is the contract of a function of [`laws`], and stated in `specs/`: `Laws.antt`, `Parts.antt`
//! and `Replies.antt` (one tenant's part of a run), `Exclusive.antt` and `Settled.antt` (turns and
//! requests), `Gates.antt` and `Stores.antt` (the layers below), `FirstCall.antt`, `Saved.antt`,
//! `Sent.antt`, `Readers.antt` and `Collected.antt` (that something happens). The files of `proofs/`
//! pass on the same laws as lemmas, and when each step does what.
#![tactic(auto)]

pub mod laws;
