// The line of a reply, in a text that is kept for the next one.
ghost use Rattle.std.specs.Prelude.{◌≡◌, [], IsOk, OnErr, OnOk};
ghost use Rattle.script_model.specs.Text.{reply_line};
ghost use Rattle.script_text.specs.Printing.{IsOther, IsShort};

use crate::ending::Ending;
use crate::grouped::push_grouped;
use crate::pairs::push_pairs;
use crate::reply::{many_shown, push_shown, put_reply};
use iso_model::Memory;
use script_model::Reply;
use std::alloc::Global;
use std::marker::Model;

/// The line of the last reply. Contracts see it.
#[derive(Drop)]
pub struct ReplyLine {
    short: Ending,
    long: Vec<u8>,
    is_long: bool,
}

impl Model for ReplyLine {
    ghost use Rattle.std.specs.Prelude.{ℕ, List, cond};

    ghost Value = { List ℕ };

    ghost view = { λ a. cond a.is_long a.long.items a.short.text };
}

impl ReplyLine {
    /// No line yet. It takes no memory.
    pub fn new(alloc: Global) -> Self
        ensures { result ≡ [] }
    {
        ReplyLine {
            short: Ending::new(),
            long: Vec::new(alloc),
            is_long: false,
        }
    }

    /// Makes the line of a client's reply. It takes memory only where the reply shows more than `MOST_SHOWN`
    /// bytes, or pairs, or how a group ended.
    ///
    /// # Errors
    ///
    /// Want of memory. There is no line then.
    #[inline(always)]
    pub fn set(&mut self, client: u8, reply: &Reply) -> Result<(), Memory>
        ensures ok { OnOk result (self.new ≡ reply_line client reply.now) }
        ensures err { OnErr result (self.new ≡ []) }
        ensures succeeds { IsShort reply.now → IsOk result }
    {
        match reply {
            Reply::Pairs(pairs) => {
                self.long.clear();
                self.is_long = true;
                push_pairs(&mut self.long, client, pairs.as_slice())
            }
            Reply::Grouped(answers) => {
                self.long.clear();
                self.is_long = true;
                push_grouped(&mut self.long, client, answers.as_slice())
            }
            _ => self.set_other(client, reply),
        }
    }

    #[inline(always)]
    fn set_other(&mut self, client: u8, reply: &Reply) -> Result<(), Memory>
        requires { IsOther reply.now }
        ensures ok { OnOk result (self.new ≡ reply_line client reply.now) }
        ensures err { OnErr result (self.new ≡ []) }
        ensures succeeds { IsShort reply.now → IsOk result }
    {
        self.long.clear();
        match many_shown(reply) {
            Some(bytes) => {
                self.is_long = true;
                push_shown(&mut self.long, client, bytes)
            }
            None => {
                self.is_long = false;
                put_reply(&mut self.short, client, reply);
                Ok(())
            }
        }
    }

    /// The line, with its line feed.
    pub fn text(&self) -> &[u8]
        ensures { result.now ≡ self.now }
    {
        if self.is_long {
            self.long.as_slice()
        } else {
            self.short.as_slice()
        }
    }
}
