// File working by its definition, and the theorems of the three demands. There are no functions here.
#![tactic(auto)]

// 0, or the number of the fault or limit; its place; the findings, and the bytes they take.
#[repr(C)]
#[derive(Clone, Copy)]
pub struct Answer {
    pub number: u64,
    pub place: u64,
    pub findings: u64,
    pub bytes: u64,
}
