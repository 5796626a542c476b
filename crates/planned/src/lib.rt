// That what is planned is what is made: the claims stand in specs/, their proofs in proofs/. There is no code here.
#![tactic(auto)]

#[derive(Clone, Copy)]
pub struct Nothing {
    pub nothing: u8,
}
