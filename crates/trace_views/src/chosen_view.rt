//! A view of the entries that a choice asks for.

ghost use Rattle.std.specs.Prelude.{◌≡◌, List, [], ℕ, replicate, if◌then◌else◌};
ghost use Rattle.entry_codec.specs.{Entries.Drop, Entries.bytes_of, Seen.lent};
ghost use Rattle.long_messages.specs.{Gatherings.entry_told, Gatherings.parts_up_to, Joining.Single};
ghost use Rattle.trace_text.specs.Chooses.{asks_where, is_part_chosen};
ghost use Rattle.trace_client.specs.{Forms.as_bytes, Forms.lost_at, Forms.AreTexts, Forms.IsText, Gaps.drop_of, Gaps.drops_of};
ghost use Rattle.trace_views.specs.Feeding.{TakesText};

use crate::view::View;
use entry_codec::EntryRef;
use long_messages::{Became, Fragment};
use trace_items::ConsumerFault;
use trace_text::Chooser;

/// The most messages that one drop record says were lost.
const MOST: u64 = 4_294_967_295;

/// Hands a view the entries that a choice asks for, and each where there is none.
#[derive(Drop)]
pub struct ChosenView<'c, V: View> {
    pub chooser: Chooser<'c>,
    pub view: V,
}

impl<V: View> ChosenView<'_, V> {
    /// Hands on an entry, or a long message.
    #[inline(always)]
    pub fn take(&mut self, number: u64, entry: EntryRef<'_>) -> Result<(), ConsumerFault>
        ensures takes { TakesText result
            (IsText (as_bytes (asks_where self.old.chooser.choice)) number
            (Single (lent entry.entry)))
            (V.failed self.new.view) (V.seen self.old.view) (V.seen self.new.view) }
        ensures choice { self.new.chooser.choice ≡ self.old.chooser.choice }
    {
        if self.chooser.chooses(number, entry)? {
            self.view.take(entry)?;
        }
        Ok(())
    }

    /// Hands on a part of a message that isn't whole: such a message is a lost one, where its first part stands.
    fn take_part(&mut self, number: u64, part: u64) -> Result<(), ConsumerFault>
        ensures takes { TakesText result (λ text. text
            ≡ (if is_part_chosen (asks_where self.old.chooser.choice) number
            then lost_at part else []))
            (V.failed self.new.view) (V.seen self.old.view) (V.seen self.new.view) }
        ensures choice { self.new.chooser.choice ≡ self.old.chooser.choice }
    {
        if self.chooser.chooses_part(number) && part == 1 {
            self.view.take(EntryRef::Drop(1))?;
        }
        Ok(())
    }

    /// Hands on the parts up to `held`, numbered from `first`; none for None.
    pub fn take_parts(&mut self, first: u64, held: Option<Fragment>) -> Result<(), ConsumerFault>
        ensures takes { TakesText result (λ text. (bytes : List ℕ)
            → AreTexts (as_bytes (asks_where self.old.chooser.choice)) first
            (parts_up_to held bytes) text)
            (V.failed self.new.view) (V.seen self.old.view) (V.seen self.new.view) }
        ensures choice { self.new.chooser.choice ≡ self.old.chooser.choice }
    {
        match held {
            Some(last) if last.part > 0 => self.take_part(first, 1),
            _ => Ok(()),
        }
    }

    /// Hands on what an entry became where fragments are put together; nothing where it waits.
    pub fn take_became(
        &mut self,
        number: u64,
        became: Became,
        entry: EntryRef<'_>,
        message: &[u8],
    ) -> Result<(), ConsumerFault>
        ensures takes { TakesText result
            (AreTexts (as_bytes (asks_where self.old.chooser.choice)) number
            (entry_told became (lent entry.entry) message.now))
            (V.failed self.new.view) (V.seen self.old.view) (V.seen self.new.view) }
        ensures choice { self.new.chooser.choice ≡ self.old.chooser.choice }
    {
        match became {
            Became::Held => Ok(()),
            Became::Long => self.take(number, EntryRef::Message(message)),
            Became::Part(part) => self.take_part(number, part.part),
            Became::Single => self.take(number, entry),
        }
    }

    /// Hands on so many drop records, each of as many messages as one can say.
    fn take_copies(&mut self, copies: u64) -> Result<(), ConsumerFault>
        ensures takes { TakesText result
            (λ text. text ≡ bytes_of (replicate copies (Drop 4294967295)))
            (V.failed self.new.view) (V.seen self.old.view) (V.seen self.new.view) }
        ensures choice { self.new.chooser.choice ≡ self.old.chooser.choice }
    {
        for _ in 0..copies {
            self.view.take(EntryRef::Drop(u32::MAX))?;
        }
        Ok(())
    }

    /// Hands on a drop record of so many messages; none where that is 0.
    fn take_drop(&mut self, count: u32) -> Result<(), ConsumerFault>
        ensures takes { TakesText result (λ text. text ≡ bytes_of (drop_of count))
            (V.failed self.new.view) (V.seen self.old.view) (V.seen self.new.view) }
        ensures choice { self.new.chooser.choice ≡ self.old.chooser.choice }
    {
        if count > 0 {
            self.view.take(EntryRef::Drop(count))?;
        }
        Ok(())
    }

    /// Hands on so many lost messages, in as few drop records as can say as many.
    pub fn take_drops(&mut self, count: u64) -> Result<(), ConsumerFault>
        ensures takes { TakesText result (λ text. text ≡ bytes_of (drops_of count))
            (V.failed self.new.view) (V.seen self.old.view) (V.seen self.new.view) }
        ensures choice { self.new.chooser.choice ≡ self.old.chooser.choice }
    {
        self.take_copies(count / MOST)?;
        self.take_drop((count % MOST) as u32)
    }
}
