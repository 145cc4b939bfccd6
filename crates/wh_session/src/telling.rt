ghost use Rattle.std.specs.Prelude.{◌≡◌, [], OnOk};
ghost use Rattle.wh_session.specs.Tally.{tally_of, told_after};

use crate::tally::Tally;
use std::alloc::{AllocError, Global};
use std::marker::Model;
use wh_base::replies::Reply;
use wh_base::statements::Id;
use wh_base::values::Version;
use wh_render::push_reply;

/// What a session keeps of its replies: their text in a version of transcripts, and their tally.
#[derive(Drop)]
pub struct Telling {
    version: Version,
    text: Vec<u8>,
    tally: Tally,
}

impl Model for Telling {
    ghost use Rattle.wh_session.specs.Tally as kept;

    ghost Value = { kept.Telling };

    ghost view = { λ t. record { version = t.version; text = t.text.items; tally = t.tally } };
}

impl Telling {
    /// That of no replies. Takes no memory.
    pub fn new(alloc: Global, version: Version) -> Telling
        ensures { result ≡ record { version = version; text = []; tally = tally_of [] } }
    {
        Telling {
            version,
            text: Vec::new(alloc),
            tally: Tally::new(),
        }
    }

    /// Writes the reply to a command at the end of the text, and counts it. An error says that memory ran out, or that a
    /// number of the tally would have more than 64 bits, which no run reaches; then the text may have a part of the reply.
    pub fn tell(&mut self, id: Id, reply: &Reply) -> Result<(), AllocError>
        ensures { OnOk result (self.new ≡ told_after self.old id reply.now) }
    {
        push_reply(&mut self.text, self.version, id, reply)?;
        self.tally = self.tally.plus(Tally::of(reply))?;
        Ok(())
    }

    /// The tally.
    pub fn tally(&self) -> Tally
        ensures { result ≡ self.now.tally }
    {
        self.tally
    }

    /// The text alone. Takes no memory.
    pub fn into_text(self) -> Vec<u8>
        ensures { result.items ≡ self.text }
    {
        let Telling { text, .. } = self;
        text
    }
}
