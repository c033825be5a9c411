ghost use Rattle.std.specs.Prelude.{◌≡◌, ◌≤◌, ◌<◌, ◌++◌, [], length, slice_index_or, decimal};
ghost use Rattle.dfs_gen.specs.Script.{begin_line, mkdir_line, create_line, merge_lines, last_group, reader_begin_line, reader_list_line};

use crate::text::{CAPACITY, Text};

/// How many creates a group has, but for the last one.
const GROUP: u32 = 1000;

/// A line of a script. The job `w` writes each group of creates, and the job `z` reads what the last one published.
#[derive(Clone, Copy)]
pub(crate) enum Line {
    Begin { group: u32 },
    MakeDir { group: u32 },
    Create { number: u32 },
    /// One of the five lines that merge the group's changes, by its place among them.
    Merge { group: u32, step: u8 },
    Publish { group: u32 },
    ReaderBegin,
    ReaderList,
    ReaderDrop,
}

impl Line {
    ghost use Rattle.std.specs.Prelude.{◌≡◌, ◌≤◌, ◌<◌, ◌+◌, ◌*◌, ◌/◌, ◌∷◌, length};
    ghost use Rattle.dfs_gen.specs.Script.{ended, script_lines};
    ghost use Rattle.dfs_gen.specs.Line.{IsLine, line_text, lines_behind, lines_from_create, lines_after, lines_left, IsLineLeft};

    /// The first line of the script of so many creates.
    pub(crate) fn first(creates: u32) -> Line
        ensures line { IsLine creates result }
        ensures lines { line_text creates result ∷ lines_behind creates result ≡ script_lines creates }
    {
        if creates == 0 {
            Line::ReaderBegin
        } else {
            Line::Begin { group: 0 }
        }
    }

    /// The line behind this one, if there is one.
    pub(crate) fn next(self, creates: u32) -> Option<Line>
        requires { IsLine creates self }
        ensures line { IsLineLeft creates result }
        ensures lines { lines_behind creates self ≡ lines_left creates result }
    {
        match self {
            Line::Begin { group } => Some(Line::MakeDir { group }),
            Line::MakeDir { group } => Some(Line::Create {
                number: GROUP * group,
            }),
            Line::Create { number } => Some(Line::after_create(number, creates)),
            Line::Merge { group, step } if step < 4 => Some(Line::Merge {
                group,
                step: step + 1,
            }),
            Line::Merge { group, .. } => Some(Line::Publish { group }),
            Line::Publish { group } => Some(Line::after_group(group, creates)),
            Line::ReaderBegin => Some(Line::ReaderList),
            Line::ReaderList => Some(Line::ReaderDrop),
            Line::ReaderDrop => None,
        }
    }

    fn after_create(number: u32, creates: u32) -> Line
        requires { number < creates }
        ensures line { IsLine creates result }
        ensures lines { lines_from_create creates (number / 1000) (number + 1) ≡ line_text creates result ∷ lines_behind creates result }
    {
        let next = number + 1;
        if next < creates && next % GROUP != 0 {
            Line::Create { number: next }
        } else {
            Line::Merge {
                group: number / GROUP,
                step: 0,
            }
        }
    }

    fn after_group(group: u32, creates: u32) -> Line
        requires { 1000 * group < creates }
        ensures line { IsLine creates result }
        ensures lines { lines_after creates group ≡ line_text creates result ∷ lines_behind creates result }
    {
        if group < last_group(creates) {
            Line::Begin { group: group + 1 }
        } else {
            Line::ReaderBegin
        }
    }

    /// The line's bytes, its LF among them.
    pub(crate) fn text(self, creates: u32) -> Text
        requires { IsLine creates self }
        ensures { result ≡ ended (line_text creates self) }
    {
        let mut text = self.words(creates);
        text.push(b"\n");
        text
    }

    fn words(self, creates: u32) -> Text
        requires { IsLine creates self }
        ensures text { result ≡ line_text creates self }
        ensures short { length result < CAPACITY }
    {
        match self {
            Line::Begin { group } => begin(group),
            Line::MakeDir { group } => make_dir(group),
            Line::Create { number } => create(number),
            Line::Merge { step, .. } => plain(merge(step)),
            Line::Publish { group } => numbered(b"w publish g", group),
            Line::ReaderBegin => reader_begin(creates),
            Line::ReaderList => reader_list(creates),
            Line::ReaderDrop => plain(b"z drop"),
        }
    }
}

fn last_group(creates: u32) -> u32
    ensures { result ≡ last_group creates }
{
    creates.saturating_sub(1) / GROUP
}

fn plain(words: &[u8]) -> Text
    requires { length words.now ≤ 20 }
    ensures text { result ≡ words.now }
    ensures short { length result < CAPACITY }
{
    let mut text = Text::new();
    text.push(words);
    text
}

// Words with a number behind them.
fn numbered(words: &[u8], number: u32) -> Text
    requires { length words.now ≤ 20 }
    ensures text { result ≡ words.now ++ decimal number }
    ensures short { length result < CAPACITY }
{
    let mut text = Text::new();
    text.push(words);
    text.push_number(number as u64);
    text
}

fn begin(group: u32) -> Text
    ensures text { result ≡ begin_line group }
    ensures short { length result < CAPACITY }
{
    if group == 0 {
        plain(b"begin w")
    } else {
        numbered(b"begin w g", group - 1)
    }
}

fn make_dir(group: u32) -> Text
    ensures text { result ≡ mkdir_line group }
    ensures short { length result < CAPACITY }
{
    let mut text = Text::new();
    text.push(b"w mkdir /d");
    text.push_number((group % 7) as u64);
    text.push(b" 755 ");
    text.push_number(group as u64);
    text
}

fn create(number: u32) -> Text
    ensures text { result ≡ create_line number }
    ensures short { length result < CAPACITY }
{
    let mut text = Text::new();
    text.push(b"w create /d");
    text.push_number((number / GROUP % 7) as u64);
    text.push(b"/f");
    text.push_number((number % 500) as u64);
    text.push(b" 644 ");
    text.push_number(number as u64);
    text.push(b" ");
    text.push_number(number as u64);
    text.push(b" r");
    text.push_number(number as u64);
    text
}

fn merge(step: u8) -> &'static [u8]
    requires { step < 5 }
    ensures words { result.now ≡ slice_index_or merge_lines step [] }
    ensures short { length result.now ≤ 20 }
{
    match step {
        0 => b"w plan all 4",
        1 => b"w part 3",
        2 => b"w part 1",
        3 => b"w part 0",
        _ => b"w part 2",
    }
}

fn reader_begin(creates: u32) -> Text
    ensures text { result ≡ reader_begin_line creates }
    ensures short { length result < CAPACITY }
{
    if creates == 0 {
        plain(b"begin z")
    } else {
        numbered(b"begin z g", last_group(creates))
    }
}

fn reader_list(creates: u32) -> Text
    ensures text { result ≡ reader_list_line creates }
    ensures short { length result < CAPACITY }
{
    if creates == 0 {
        plain(b"z list /")
    } else {
        numbered(b"z list /d", last_group(creates) % 7)
    }
}
