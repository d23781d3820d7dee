//! Pictures of modules that stand under each other: what a text reads back as that is drawn so.
#![tactic(auto)]
