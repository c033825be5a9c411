ghost use Rattle.std.specs.Prelude.{◌≡◌};

use crate::text::Text;
use dfs_host::NoMemory;
use std::marker::Model;

/// The counts of replies that were counted so far, in place of the replies themselves.
#[derive(Debug, Drop)]
pub struct Summary {
    said: u64,
    ok: u64,
    error: u64,
    bytes: u64,
}

impl Model for Summary {
    ghost use Rattle.dfs_gen.specs.Summary.{Counts};

    ghost Value = { Counts };

    ghost view = { λ summary. record { said = summary.said; ok = summary.ok; error = summary.error; bytes = summary.bytes } };
}

impl Summary {
    ghost use Rattle.std.specs.Prelude.{◌≡◌, ◌++◌, ◌∷◌, [], List, ℕ, OnOk, OnErr};
    ghost use Rattle.dfs_gen.specs.Summary.{counts_of, counted, summary_text};

    /// The summary of no replies.
    pub fn new() -> Summary
        ensures { result ≡ counts_of [] }
    {
        Summary {
            said: 0,
            ok: 0,
            error: 0,
            bytes: 0,
        }
    }

    /// Counts the reply to a line, its LFs among its bytes. An empty one is not a reply.
    pub fn count(&mut self, reply: &[u8])
        ensures counted { self.new ≡ counted self.old reply.now }
        ensures all { (replies : List (List ℕ)) → self.old ≡ counts_of replies → self.new ≡ counts_of (replies ++ reply.now ∷ []) }
    {
        self.said = self.said.saturating_add(u64::from(!reply.is_empty()));
        self.ok = self.ok.saturating_add(u64::from(reply.starts_with(b"ok")));
        self.error = self
            .error
            .saturating_add(u64::from(reply.starts_with(b"error")));
        self.bytes = self.bytes.saturating_add(reply.len() as u64);
    }

    /// Appends the summary's line.
    pub fn print(&self, out: &mut Vec<u8>) -> Result<(), NoMemory>
        ensures ok { OnOk result (out.new.items ≡ out.old.items ++ summary_text self.now) }
        ensures err { OnErr result (out.new.items ≡ out.old.items) }
    {
        let mut text = Text::new();
        text.push(b"lines ");
        text.push_number(self.said);
        text.push(b" ok ");
        text.push_number(self.ok);
        text.push(b" error ");
        text.push_number(self.error);
        text.push(b" bytes ");
        text.push_number(self.bytes);
        text.push(b"\n");
        out.extend_from_slice(text.bytes())?;
        Ok(())
    }
}
