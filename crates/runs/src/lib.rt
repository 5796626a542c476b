// Lists of steps on bytes: the definitions stand in specs/, their laws in proofs/.
#![tactic(auto)]

#[derive(Clone, Copy)]
pub struct Nothing {
    pub nothing: u8,
}
