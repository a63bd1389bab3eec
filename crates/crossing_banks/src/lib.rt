// The calls on a bank of voices for a caller in C, who holds the bank itself: it has C's layout and
// is passed and returned by value.
#![tactic(auto)]

ghost use Rattle.std.specs.Prelude.{◌≡◌, length};
ghost use Rattle.answer.specs.Reply.{of_outcome};
ghost use Rattle.answer.specs.Written.{written};
ghost use Rattle.lobes.specs.Pan as side;
ghost use Rattle.voice_records.specs.VoiceRecords.{voice_of};
ghost use Rattle.voice_bank.specs.Banks.{add_reply, bank_added, remove_reply, bank_removed};
ghost use Rattle.voice_bank.specs.Banks.{change_reply, bank_changed};
ghost use Rattle.bank_masks.specs.Reading.{read_reply, read_mask};
ghost use Rattle.crossing.specs.Given.{Given};
ghost use Rattle.crossing.specs.MaskSettings.{config_of, with_settings};
ghost use Rattle.crossing_banks.specs.Banked.{plain_banked};

use answer::Outcome;
use bank_masks::read_masks;
use crossing::answers::give_outcome;
use crossing::settings::Settings;
use scene::{MaskConfig, MaskVoice};
use voice_bank::{Bank, add_voice, change_voice, remove_voice};
use voice_records::VoiceRecord;

// What a call on a bank answers, with C's layout: a number, 0 when done, a place, and the bank.
#[repr(C)]
#[derive(Clone, Copy)]
pub struct PlainBanked {
    pub number: u32,
    pub place: usize,
    pub bank: Bank,
}

fn plain_banked(outcome: Outcome, bank: Bank) -> PlainBanked
    ensures { result ≡ plain_banked (of_outcome outcome) bank }
{
    PlainBanked {
        number: answer::number(outcome) as u32,
        place: answer::place(outcome),
        bank,
    }
}

// `add_voice`.
pub fn add(mut bank: Bank, id: u16, voice: VoiceRecord) -> PlainBanked
    ensures { result ≡ plain_banked (add_reply bank id (voice_of voice))
        (bank_added bank id (voice_of voice)) }
{
    let outcome = add_voice(&mut bank, id, MaskVoice::from(voice));
    plain_banked(outcome, bank)
}

// `remove_voice`.
pub fn remove(mut bank: Bank, id: u16) -> PlainBanked
    ensures { result ≡ plain_banked (remove_reply bank id) (bank_removed bank id) }
{
    let outcome = remove_voice(&mut bank, id);
    plain_banked(outcome, bank)
}

// `change_voice`.
pub fn change(mut bank: Bank, id: u16, voice: VoiceRecord) -> PlainBanked
    ensures { result ≡ plain_banked (change_reply bank id (voice_of voice))
        (bank_changed bank id (voice_of voice)) }
{
    let outcome = change_voice(&mut bank, id, MaskVoice::from(voice));
    plain_banked(outcome, bank)
}

// `read_masks`. A shape outside 0..7 is refusal 2, after refusal 1.
pub fn read(
    left: &mut [f32],
    right: &mut [f32],
    manual_mask_db: &[f32],
    bank: Bank,
    settings: Settings,
    table: &[f32],
    place: &mut usize,
) -> u32
    ensures given { Given (with_settings settings (λ config. read_reply
        (length left.old) (length right.old) manual_mask_db.now
        bank config table.now)) result place.old place.new }
    ensures left_after { left.new ≡ written (with_settings settings (λ config. read_reply
        (length left.old) (length right.old) manual_mask_db.now
        bank config table.now)) (read_mask side.left manual_mask_db.now bank
        (config_of settings) table.now) left.old }
    ensures right_after { right.new ≡ written (with_settings settings (λ config. read_reply
        (length left.old) (length right.old) manual_mask_db.now
        bank config table.now)) (read_mask side.right manual_mask_db.now bank
        (config_of settings) table.now) right.old }
{
    match MaskConfig::try_from(settings) {
        Ok(config) => {
            let outcome = read_masks(left, right, manual_mask_db, &bank, config, table);
            give_outcome(outcome, place)
        }
        Err(refusal) => give_outcome(Err(refusal), place),
    }
}
