// Why bytes are refused as a program.

// breaks a rule for programs
#[derive(Clone, Copy, Debug, PartialEq, Eq)]
pub enum Fault {
    Broken = 16,
}
