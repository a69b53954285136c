//! Checks of pools that threads share, by running them. The contracts below say what each call does; that no turn of a
//! lone heap waits, and that its calls end, is tried here. All of it is tests, in a crate of their own, since a crate
//! with tests is proved twice. This project's own.
#![tactic(auto)]

#[cfg(test)]
mod tests;
