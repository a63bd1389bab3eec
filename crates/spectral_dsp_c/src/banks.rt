// A bank of voices, which is passed and returned by value, with C's layout.
ghost use Rattle.std.specs.Prelude.{◌≡◌, length};
ghost use Rattle.answer.specs.Written.{written};
ghost use Rattle.lobes.specs.Pan as side;
ghost use Rattle.voice_records.specs.VoiceRecords.{voice_of};
ghost use Rattle.voice_bank.specs.Banks.{empty, add_reply, bank_added, remove_reply, bank_removed};
ghost use Rattle.voice_bank.specs.Banks.{change_reply, bank_changed};
ghost use Rattle.bank_masks.specs.Reading.{read_reply, read_mask};
ghost use Rattle.crossing.specs.Given.{Given};
ghost use Rattle.crossing.specs.MaskSettings.{config_of, with_settings};
ghost use Rattle.crossing_banks.specs.Banked.{plain_banked};

use crossing::settings::Settings;
use crossing_banks::PlainBanked;
use voice_bank::Bank;
use voice_records::VoiceRecord;

#[unsafe(no_mangle)]
pub extern "C" fn dovetable_new_bank() -> Bank
    ensures { result ≡ empty }
{
    spectral_dsp::new_bank()
}

#[unsafe(no_mangle)]
pub extern "C" fn dovetable_add_voice(bank: Bank, id: u16, voice: VoiceRecord) -> PlainBanked
    ensures { result ≡ plain_banked (add_reply bank id (voice_of voice))
        (bank_added bank id (voice_of voice)) }
{
    crossing_banks::add(bank, id, voice)
}

#[unsafe(no_mangle)]
pub extern "C" fn dovetable_remove_voice(bank: Bank, id: u16) -> PlainBanked
    ensures { result ≡ plain_banked (remove_reply bank id) (bank_removed bank id) }
{
    crossing_banks::remove(bank, id)
}

#[unsafe(no_mangle)]
pub extern "C" fn dovetable_change_voice(bank: Bank, id: u16, voice: VoiceRecord) -> PlainBanked
    ensures { result ≡ plain_banked (change_reply bank id (voice_of voice))
        (bank_changed bank id (voice_of voice)) }
{
    crossing_banks::change(bank, id, voice)
}

#[unsafe(no_mangle)]
pub extern "C" fn dovetable_read_masks(
    left: &mut [f32],
    right: &mut [f32],
    manual_mask_db: &[f32],
    bank: Bank,
    settings: Settings,
    table: &[f32],
    place: &mut usize,
) -> u32
    ensures given { Given (with_settings settings (λ config. read_reply
        (length left.old) (length right.old) manual_mask_db.now
        bank config table.now)) result place.old place.new }
    ensures left_after { left.new ≡ written (with_settings settings (λ config. read_reply
        (length left.old) (length right.old) manual_mask_db.now
        bank config table.now)) (read_mask side.left manual_mask_db.now bank
        (config_of settings) table.now) left.old }
    ensures right_after { right.new ≡ written (with_settings settings (λ config. read_reply
        (length left.old) (length right.old) manual_mask_db.now
        bank config table.now)) (read_mask side.right manual_mask_db.now bank
        (config_of settings) table.now) right.old }
{
    crossing_banks::read(left, right, manual_mask_db, bank, settings, table, place)
}
