// The two layouts of a table, and which numbers name a layout that a reader knows.
ghost use Rattle.std.specs.Prelude.{◌≡◌, ◌*◌, ◌/◌, ◌≤◌};
ghost use Rattle.chain.specs.Layout.{width, number_of, known};

// One: document 01's seven numbers per task. Two: an eighth behind them, a label.
#[derive(Clone, Copy, Debug, PartialEq, Eq)]
pub enum Layout {
    One,
    Two,
}

// The layout's own number.
pub(crate) fn number_of(layout: Layout) -> u32
    ensures { result ≡ number_of layout }
{
    match layout {
        Layout::One => 1,
        Layout::Two => 2,
    }
}

// How many numbers so many tasks have.
pub(crate) fn numbers_of(layout: Layout, count: u32) -> u64
    ensures is { result ≡ count * width layout }
    ensures most { result ≤ count * 8 }
{
    match layout {
        Layout::One => (count as u64) * 7,
        Layout::Two => (count as u64) * 8,
    }
}

// How many tasks so many numbers are.
pub(crate) fn count_of(layout: Layout, numbers: usize) -> usize
    ensures is { result ≡ numbers / width layout }
    ensures most { result ≤ numbers }
{
    match layout {
        Layout::One => numbers / 7,
        Layout::Two => numbers / 8,
    }
}

// The layout that a number names, if the reader knows it: a reader of layout 2 knows both. No `TryFrom`, as it depends on the reader.
#[tactic(auto, unfolding(crate::specs::Layout::known))]
pub(crate) fn known_to(reader: Layout, number: u32) -> Option<Layout>
    ensures { result ≡ known reader number }
{
    match (reader, number) {
        (_, 1) => Some(Layout::One),
        (Layout::Two, 2) => Some(Layout::Two),
        _ => None,
    }
}
