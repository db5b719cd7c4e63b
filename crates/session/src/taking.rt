//! What an awaited answer does.
ghost use Rattle.std.specs.Prelude.{◌≡◌, true, false, Some, MatchResult};
ghost use Rattle.units.specs.Keys.{has_key};
ghost use Rattle.session.specs.Sessions.{doomed_by, take_answer, epochs_agree};
ghost use Rattle.session.specs.declared.answered.Heard.{Heard};
ghost use Rattle.message.specs.declared.message.Answer.{Answer};

use crate::lists::drop_key;
use crate::{Answered, Heard, Open, Tx};
use message::ReadAnswer;
use units::{Fault, Key, Value, copy_value};

impl Tx<'_, Open> {
    /// Takes the value of an awaited answer, which has the epoch of the shard's other answers. `Memory` leaves all as it was.
    pub(crate) fn take_value(
        &mut self,
        answer: &ReadAnswer,
        value: &Option<Value>,
    ) -> Result<Heard, Fault>
        requires awaited { has_key self.old.client.awaited answer.now.key ≡ true }
        requires agree { epochs_agree self.old.client.taken
            answer.now.from answer.now.epoch ≡ true }
        ensures splits { self.new.splits ≡ self.old.splits }
        ensures step { MatchResult result
            (λ heard. (self.new.client ≡
            take_answer self.old.client answer.now.from answer.now.key answer.now.epoch
            (Answer.Holds value.now)) × (heard ≡ Heard.Value value.now))
            (λ fault. (self.new.client ≡ self.old.client) × (fault ≡ Fault.Memory)) }
    {
        self.taken.reserve(1)?;
        let shown = copy_value(value)?;
        let kept = copy_value(value)?;
        self.taken.push_reserved(Answered {
            key: answer.key,
            shard: answer.from,
            epoch: answer.epoch,
            value: kept,
        });
        drop_key(&mut self.awaited, &answer.key);
        Ok(Heard::Value(shown))
    }

    /// Dooms the transaction by the answer for a key: it can only give up.
    pub(crate) fn doom_by(&mut self, key: Key)
        ensures splits { self.new.splits ≡ self.old.splits }
        ensures step { self.new.client ≡ doomed_by key self.old.client }
    {
        drop_key(&mut self.awaited, &key);
        self.doom = Some(key);
    }
}
