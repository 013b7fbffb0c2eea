//! What a performative is called, and how many fields it has.
ghost use Rattle.std.specs.Prelude.{◌≡◌};
ghost use Rattle.amqp_performatives.specs.Named.{name_of, field_count};

use crate::listed::shown_count;
use crate::performative::Performative;

impl Performative {
    /// Its name in the standard, as `transfer`.
    pub fn name(&self) -> &'static str
        ensures { result.now ≡ name_of self.now }
    {
        match self {
            Performative::Open(_) => "open",
            Performative::Begin(_) => "begin",
            Performative::Attach(_) => "attach",
            Performative::Flow(_) => "flow",
            Performative::Transfer(_) => "transfer",
            Performative::Disposition(_) => "disposition",
            Performative::Detach(_) => "detach",
            Performative::End(_) => "end",
            Performative::Close(_) => "close",
        }
    }

    /// How many fields there are up to the last that is present, which is how many are written.
    pub fn fields(&self) -> u32
        ensures { result ≡ field_count self.now }
    {
        shown_count(self.listed().fields()) as u32
    }
}
