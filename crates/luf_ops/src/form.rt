/// The operands that an instruction has beside its operation (lopcodes.h).
#[derive(Clone, Copy, Debug, PartialEq, Eq)]
pub enum Form {
    /// `A B C k`
    Abc,
    /// `A Bx`
    Abx,
    /// `A sBx`
    Asbx,
    /// `Ax`
    Ax,
    /// `sJ`
    Sj,
}
