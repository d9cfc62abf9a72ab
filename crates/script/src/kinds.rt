// The kinds of lines: what a line may ask for, and why one is bad.

// Why a line is bad.
#[derive(Clone, Copy)]
pub enum Why {
    Long,
    Empty,
    Octet,
    Command,
    Count,
    Place,
    Hex,
}

// What a line asks for.
#[derive(Clone, Copy)]
pub enum Asked {
    Remark,
    Pass,
    Lose(u32),
    Keep(usize),
    Give(usize),
    Noise,
    StorePhone(u32),
    TellPhone,
    CutPhone,
    RestartPhone,
    StoreCell,
    CutCell,
    RestartCell,
}
