//! Who answers the items of a connection.
ghost use Rattle.std.specs.Prelude.{Bool, true, List, ℕ};
ghost use Rattle.http_message.specs.Item.{Item as AnItem, request as a_request, unframed};
ghost use Rattle.q_outside.specs.Ends.{Gave};

use http_message::{FramingRefusal, Request};
use q_outside::{Failed, Sink};

/// Who answers the items of a connection, one after the other. Each call gives the sink the text of
/// one reply, whole or its beginning where the sink fails.
pub trait Answers {
    /// The next item can be answered.
    ghost can: { Self → Type 0 };

    /// In the first state the item was answered by this text, which gave the second state. The
    /// reply is the last of its connection where the truth value says so.
    ghost answers: { Self → AnItem → Bool → List ℕ → Self → Type 0 };

    /// What no call changes.
    ghost keeps: { Self → Self → Type 0 };

    /// Answers a request. The connection ends after the reply where `close` says so.
    fn answer<K: Sink>(
        &mut self,
        sink: &mut K,
        request: &Request<'_>,
        close: bool,
    ) -> Result<(), Failed>
        requires { can self.old }
        ensures can { can self.new }
        ensures keeps { keeps self.old self.new }
        ensures reply { (text : List ℕ) × answers self.old (a_request request.now) close text self.new × Gave (K.at sink.old) (K.at sink.new) text result };

    /// Answers a request whose end cannot be determined, after which the connection ends. Its method is
    /// HEAD where `head` says so.
    fn refuse<K: Sink>(
        &mut self,
        sink: &mut K,
        refused: FramingRefusal,
        head: bool,
    ) -> Result<(), Failed>
        requires { can self.old }
        ensures can { can self.new }
        ensures keeps { keeps self.old self.new }
        ensures reply { (expected : Bool) → (text : List ℕ) × answers self.old (unframed refused expected head) true text self.new × Gave (K.at sink.old) (K.at sink.new) text result };

    ghost kept: { (a : Self) → keeps a a };

    ghost kept_on: { (a b c : Self) → keeps a b → keeps b c → keeps a c };
}
