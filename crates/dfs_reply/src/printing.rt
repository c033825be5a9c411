//! Replies are written as lines of words.

ghost use Rattle.std.specs.Prelude.{◌≡◌, ◌++◌, ◌∷◌, [], map, decimal, codes, OnOk, OnErr};
ghost use Rattle.dfs_reply.specs.Piece.{piece_text, Keeps};
ghost use Rattle.dfs_reply.specs.Text.{text, line, octal, entry_words, word_text};

use crate::{Reply, SnapList, Word};
use dfs_path::write_escaped;
use dfs_record::{DirId, Entry, NoMemory};
use dfs_space::Listing;
use itoa::Buffer;

const OK: &[u8] = b"ok";

const ERROR: &[u8] = b"error";

const JOB: &[u8] = b"job";

const MERGED: &[u8] = b"merged";

const RUNS: &[u8] = b"runs";

const RECORDS: &[u8] = b"records";

const PUBLISHED: &[u8] = b"published";

const DAMAGED: &[u8] = b"damaged";

const DIR: &[u8] = b"dir";

const FILE: &[u8] = b"file";

const SPACE: &[u8] = b" ";

const DOT: &[u8] = b".";

const LINE_FEED: &[u8] = b"\n";

// A word of a line.
#[derive(Clone, Copy)]
enum Piece<'a> {
    Text(&'a [u8]),
    Number(u64),
    // Four octal digits.
    Mode(u16),
    Identity(DirId),
    Escaped(&'a [u8]),
}

/// Appends the text of a reply: its lines, each with LF at its end, and nothing for `Reply::Nothing`.
pub fn print(reply: &Reply, out: &mut Vec<u8>) -> Result<(), NoMemory>
    ensures ok { OnOk result (out.new.items ≡ out.old.items ++ text reply.now) }
    ensures err { OnErr result (out.new.items ≡ out.old.items) }
{
    let before = out.len();
    let written = write_reply(reply, out);
    if written.is_err() {
        out.truncate(before);
    }
    written
}

fn write_reply(reply: &Reply, out: &mut Vec<u8>) -> Result<(), NoMemory>
    ensures ok { OnOk result (out.new.items ≡ out.old.items ++ text reply.now) }
    ensures err { OnErr result (Keeps out.old.items out.new.items) }
{
    match reply {
        Reply::Nothing => Ok(()),
        Reply::Ok => write_line(Piece::Text(OK), &[], out),
        Reply::Job(number) => write_line(
            Piece::Text(OK),
            &[Piece::Text(JOB), Piece::Number(*number as u64)],
            out,
        ),
        Reply::Stat(entry) => write_entry(Piece::Text(OK), entry, out),
        Reply::Listing(listing) => write_listing(listing, out),
        Reply::Snapshots(snapshots) => write_snapshots(snapshots, out),
        Reply::Merged => write_line(Piece::Text(OK), &[Piece::Text(MERGED)], out),
        Reply::Stats { runs, records } => write_stats(*runs, *records, out),
        Reply::Published { name, count } => write_line(
            Piece::Text(OK),
            &[
                Piece::Text(PUBLISHED),
                Piece::Text(name.bytes()),
                Piece::Number(*count),
            ],
            out,
        ),
        Reply::Damaged(name) => write_line(
            Piece::Text(ERROR),
            &[Piece::Text(DAMAGED), Piece::Text(name.bytes())],
            out,
        ),
        Reply::Error(word) => write_line(Piece::Text(ERROR), &[Piece::Text(spelling(*word))], out),
    }
}

fn spelling(word: Word) -> &'static [u8]
    ensures { result.now ≡ word_text word }
{
    match word {
        Word::Syntax => b"syntax",
        Word::Long => b"long",
        Word::LiveJob => b"livejob",
        Word::NoJob => b"nojob",
        Word::Full => b"full",
        Word::NoSnap => b"nosnap",
        Word::Taken => b"taken",
        Word::Root => b"root",
        Word::NoEnt => b"noent",
        Word::NotDir => b"notdir",
        Word::IsDir => b"isdir",
        Word::Exists => b"exists",
        Word::NotEmpty => b"notempty",
        Word::Inside => b"inside",
        Word::Busy => b"busy",
        Word::NoPlan => b"noplan",
        Word::Range => b"range",
        Word::Done => b"done",
    }
}

fn write_stats(runs: u64, records: u64, out: &mut Vec<u8>) -> Result<(), NoMemory>
    ensures ok { OnOk result (out.new.items ≡ out.old.items ++ text (Reply.Stats runs records)) }
    ensures err { OnErr result (Keeps out.old.items out.new.items) }
{
    write_line(
        Piece::Text(OK),
        &[
            Piece::Text(RUNS),
            Piece::Number(runs),
            Piece::Text(RECORDS),
            Piece::Number(records),
        ],
        out,
    )
}

// The count of the entries, and a line for each.
fn write_listing(listing: &Listing, out: &mut Vec<u8>) -> Result<(), NoMemory>
    ensures ok { OnOk result (out.new.items ≡ out.old.items ++ text (Reply.Listing listing.now)) }
    ensures err { OnErr result (Keeps out.old.items out.new.items) }
{
    write_count(listing.len(), out)?;
    for index in 0..listing.len() {
        let (name, entry) = listing.get(index);
        write_entry(Piece::Escaped(name.bytes()), entry, out)?;
    }
    Ok(())
}

// The count of the snapshots, and a line for each.
fn write_snapshots(snapshots: &SnapList, out: &mut Vec<u8>) -> Result<(), NoMemory>
    ensures ok { OnOk result (out.new.items ≡ out.old.items ++ text (Reply.Snapshots snapshots.now)) }
    ensures err { OnErr result (Keeps out.old.items out.new.items) }
{
    write_count(snapshots.len(), out)?;
    for index in 0..snapshots.len() {
        let (name, job) = snapshots.get(index);
        write_line(
            Piece::Text(name.bytes()),
            &[Piece::Number(*job as u64)],
            out,
        )?;
    }
    Ok(())
}

// The first line of a list.
fn write_count(count: usize, out: &mut Vec<u8>) -> Result<(), NoMemory>
    ensures ok { OnOk result (out.new.items ≡ out.old.items ++ line (codes "ok" ∷ decimal count ∷ [])) }
    ensures err { OnErr result (Keeps out.old.items out.new.items) }
{
    write_line(Piece::Text(OK), &[Piece::Number(count as u64)], out)
}

// A line of an entry with a word before it.
fn write_entry(first: Piece, entry: &Entry, out: &mut Vec<u8>) -> Result<(), NoMemory>
    ensures ok { OnOk result (out.new.items ≡ out.old.items ++ line (piece_text first.entry ∷ entry_words entry.now)) }
    ensures err { OnErr result (Keeps out.old.items out.new.items) }
{
    match entry {
        Entry::Dir { id, mode, time } => write_line(
            first,
            &[
                Piece::Text(DIR),
                Piece::Mode(*mode),
                Piece::Number(*time),
                Piece::Identity(*id),
            ],
            out,
        ),
        Entry::File {
            mode,
            time,
            size,
            reference,
        } => write_line(
            first,
            &[
                Piece::Text(FILE),
                Piece::Mode(*mode),
                Piece::Number(*time),
                Piece::Number(*size),
                Piece::Escaped(reference.bytes()),
            ],
            out,
        ),
    }
}

// Words with a space between each two, and LF.
fn write_line(first: Piece, others: &[Piece], out: &mut Vec<u8>) -> Result<(), NoMemory>
    ensures ok { OnOk result (out.new.items ≡ out.old.items ++ line (piece_text first.entry ∷ map piece_text others.now)) }
    ensures err { OnErr result (Keeps out.old.items out.new.items) }
{
    write_piece(&first, out)?;
    for piece in others {
        write_bytes(SPACE, out)?;
        write_piece(piece, out)?;
    }
    write_bytes(LINE_FEED, out)?;
    Ok(())
}

fn write_piece(piece: &Piece, out: &mut Vec<u8>) -> Result<(), NoMemory>
    ensures ok { OnOk result (out.new.items ≡ out.old.items ++ piece_text piece.now) }
    ensures err { OnErr result (Keeps out.old.items out.new.items) }
{
    match piece {
        Piece::Text(bytes) => write_bytes(bytes, out),
        Piece::Number(number) => write_number(*number, out),
        Piece::Mode(mode) => write_bytes(&octal_digits(*mode), out),
        Piece::Identity(id) => write_identity(*id, out),
        Piece::Escaped(bytes) => write_escaped(bytes, out),
    }
}

fn write_bytes(bytes: &[u8], out: &mut Vec<u8>) -> Result<(), NoMemory>
    ensures ok { OnOk result (out.new.items ≡ out.old.items ++ bytes.now) }
    ensures err { OnErr result (out.new.items ≡ out.old.items) }
{
    out.extend_from_slice(bytes)?;
    Ok(())
}

fn write_number(number: u64, out: &mut Vec<u8>) -> Result<(), NoMemory>
    ensures ok { OnOk result (out.new.items ≡ out.old.items ++ decimal number) }
    ensures err { OnErr result (out.new.items ≡ out.old.items) }
{
    let mut buffer = Buffer::new();
    out.extend_from_slice(buffer.format(number).as_bytes())?;
    Ok(())
}

// Four digits of a mode of at most 7777.
fn octal_digits(mode: u16) -> [u8; 4]
    ensures { result ≡ octal mode }
{
    [
        48 + (mode / 512 % 8) as u8,
        48 + (mode / 64 % 8) as u8,
        48 + (mode / 8 % 8) as u8,
        48 + (mode % 8) as u8,
    ]
}

fn write_identity(id: DirId, out: &mut Vec<u8>) -> Result<(), NoMemory>
    ensures ok { OnOk result (out.new.items ≡ out.old.items ++ (decimal id.job ++ codes "." ++ decimal id.counter)) }
    ensures err { OnErr result (Keeps out.old.items out.new.items) }
{
    write_number(id.job as u64, out)?;
    write_bytes(DOT, out)?;
    write_number(id.counter as u64, out)
}
