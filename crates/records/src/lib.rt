// The records of a plan: windows of three numbers each and rows of four, in flat lists that are lent (document 01, "A plan").
#![tactic(auto)]

ghost use Rattle.std.specs.Prelude.{◌≡◌, get_or};
ghost use Rattle.records.specs.Records.{AllU32, nth_window, nth_row, end_of};

// Two kinds of number that cannot be taken for one another.
#[derive(Clone, Copy)]
pub struct WindowNo(pub u32);

#[derive(Clone, Copy)]
pub struct PartitionNo(pub u32);

impl PartitionNo {
    // The largest partition number.
    pub const MAX: u32 = 15;
}

#[derive(Clone, Copy)]
pub struct Window {
    pub owner: PartitionNo,
    pub offset: u32,
    pub budget: u32,
}

impl Window {
    // How many numbers of the list a window takes.
    pub const NUMBERS: usize = 3;
}

#[derive(Clone, Copy)]
pub struct Row {
    pub partition: PartitionNo,
    pub base: u32,
    pub size: u32,
    // 0 read, 1 read and write, 2 read and execute; a number, since a row that is lent may have any (9 refuses it)
    pub access: u32,
}

impl Row {
    pub const NUMBERS: usize = 4;

    // The accesses that permit more than to read.
    pub const WRITABLE: u32 = 1;

    pub const EXECUTABLE: u32 = 2;
}

// A number past the list's end reads as 0.
fn number_at(list: &[u32], at: usize) -> u32
    ensures { result ≡ get_or list.now at 0 }
{
    if at < list.len() { list[at] } else { 0 }
}

fn handed_on(list: &[u32]) -> &[u32]
    ensures { result.now ≡ list.now }
{
    list
}

// The list as it was lent. What every list that can be lent holds, numbers below 2 ^ 32, is a promise here, so that no theorem has to assume it.
pub fn lent(list: &[u32]) -> &[u32]
    ensures { (result.now ≡ list.now) × AllU32 list.now }
{
    handed_on(list)
}

// Window w of the list.
pub fn nth_window(windows: &[u32], w: WindowNo) -> Window
    ensures { result ≡ nth_window windows.now w.0 }
{
    let at = w.0 as usize * Window::NUMBERS;
    let owner = PartitionNo(number_at(windows, at));
    Window {
        owner,
        offset: number_at(windows, at + 1),
        budget: number_at(windows, at + 2),
    }
}

// The sum is made in 64 bits, so that 4294967295 + 1 is not taken for 0.
pub fn window_end(w: Window) -> u64
    ensures { result ≡ end_of w }
{
    w.offset as u64 + w.budget as u64
}

// Row i of the list.
pub fn nth_row(rows: &[u32], i: u32) -> Row
    ensures { result ≡ nth_row rows.now i }
{
    let at = i as usize * Row::NUMBERS;
    let partition = PartitionNo(number_at(rows, at));
    Row {
        partition,
        base: number_at(rows, at + 1),
        size: number_at(rows, at + 2),
        access: number_at(rows, at + 3),
    }
}
