// Page 41 for the exported functions: the claim stands in specs/, its proof in proofs/. There is no code here.
#![tactic(auto)]

#[derive(Clone, Copy)]
pub struct Nothing {
    pub nothing: u8,
}
