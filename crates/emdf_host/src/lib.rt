// What a host calls: functions on numbers and byte slices, which emdf_host_c exports to C. docs/HOST.md has each byte form.
#![tactic(auto)]

ghost use Rattle.std.specs.Prelude.{◌≡◌};
ghost use Rattle.emdf_format.specs.Reading.{reading};
ghost use Rattle.emdf_format.specs.Calls.{classify};
ghost use Rattle.emdf_format.specs.Ordinals.{find_payload};
ghost use Rattle.emdf_format.specs.Profile.{verdict};
ghost use Rattle.emdf_format.specs.Edits.{body_edit, settings_edit, drop_edit, insert_edit, key_edit, protection_edit, edited, blank};
ghost use Rattle.openjoc_emdf.specs.Answers.{class_answer};
ghost use Rattle.emdf_answers.specs.Form.{version};
ghost use Rattle.emdf_answers.specs.Bits.{BitReplies, new_reply, remaining_reply, read_bits_reply, read_bit_reply, take_bits_reply, byte_align_reply};
ghost use Rattle.emdf_answers.specs.Fields.{FieldReplies, variable_bits_reply};
ghost use Rattle.emdf_answers.specs.Replies.{two_reply, Replies};
ghost use Rattle.emdf_answers.specs.Carriers.{read_into, ReadReplies, class_reply, MoveReplies, find_figures};
ghost use Rattle.emdf_answers.specs.Verdict.{profile_of, verdict_reply};
ghost use Rattle.emdf_answers.specs.Edits.{EditReplies};
ghost use Rattle.emdf_settings_bytes.specs.Settings.{settings_of};
ghost use Rattle.emdf_recipe.specs.File.{recipe_of, check_answer};
ghost use Rattle.emdf_recipe_bytes.specs.Recipes.{checked_figures, RecipeReplies};

use emdf_format::RecordsError;
use openjoc_bitio::BitCursor;

// The version of what the calls take and answer; include/emdf.h has the same number.
#[tactic(auto, unfolding(emdf_answers::specs::Form::version))]
pub fn emdf_version() -> u32
    ensures { result ≡ version }
{
    5
}

#[tactic(auto, unfolding(emdf_answers::specs::Bits::new_reply))]
pub fn emdf_bit_cursor(bytes: &[u8], answer: &mut [u8; 48]) -> u32
    ensures { BitReplies (new_reply bytes.now) result answer.new }
{
    emdf_rows::put_reply(answer, emdf_answers::accepted_at(BitCursor::new(bytes), 0))
}

#[tactic(auto, unfolding(emdf_answers::specs::Bits::remaining_reply))]
pub fn emdf_bits_remaining(bytes: &[u8], position: usize, end: usize, answer: &mut [u8; 48]) -> u32
    ensures { BitReplies (remaining_reply bytes.now position end) result answer.new }
{
    let cursor = BitCursor { position, end };
    let remaining = cursor.bits_remaining(bytes);
    emdf_rows::put_reply(answer, emdf_answers::accepted_at(cursor, remaining as u64))
}

#[tactic(auto, unfolding(emdf_answers::specs::Bits::read_bits_reply))]
pub fn emdf_read_bits(
    bytes: &[u8],
    position: usize,
    end: usize,
    width: u8,
    answer: &mut [u8; 48],
) -> u32
    ensures { BitReplies (read_bits_reply bytes.now position end width) result answer.new }
{
    let cursor = BitCursor { position, end };
    emdf_rows::put_reply(
        answer,
        emdf_answers::bits_reply(cursor, cursor.read_bits(bytes, width)),
    )
}

#[tactic(auto, unfolding(emdf_answers::specs::Bits::read_bit_reply))]
pub fn emdf_read_bit(bytes: &[u8], position: usize, end: usize, answer: &mut [u8; 48]) -> u32
    ensures { BitReplies (read_bit_reply bytes.now position end) result answer.new }
{
    let cursor = BitCursor { position, end };
    emdf_rows::put_reply(
        answer,
        emdf_answers::bit_reply(cursor, cursor.read_bit(bytes)),
    )
}

#[tactic(auto, unfolding(emdf_answers::specs::Bits::take_bits_reply))]
pub fn emdf_take_bits(
    bytes: &[u8],
    position: usize,
    end: usize,
    count: usize,
    answer: &mut [u8; 48],
) -> u32
    ensures { BitReplies (take_bits_reply bytes.now position end count) result answer.new }
{
    let cursor = BitCursor { position, end };
    emdf_rows::put_reply(
        answer,
        emdf_answers::window_reply(cursor, cursor.take_bits(bytes, count)),
    )
}

#[tactic(auto, unfolding(emdf_answers::specs::Bits::byte_align_reply))]
pub fn emdf_byte_align(bytes: &[u8], position: usize, end: usize, answer: &mut [u8; 48]) -> u32
    ensures { BitReplies (byte_align_reply bytes.now position end) result answer.new }
{
    let cursor = BitCursor { position, end };
    emdf_rows::put_reply(
        answer,
        emdf_answers::align_reply(cursor, cursor.byte_align(bytes)),
    )
}

// A variable field and its groups, with the cursor after it, also where it is refused.
#[tactic(auto, unfolding(emdf_answers::specs::Fields::variable_bits_reply))]
pub fn emdf_variable_bits(
    bytes: &[u8],
    position: usize,
    end: usize,
    width: u8,
    limit: u8,
    answer: &mut [u8; 56],
) -> u32
    ensures { FieldReplies (variable_bits_reply bytes.now position end width limit) result answer.new }
{
    let cursor = BitCursor { position, end };
    emdf_rows::put_field(
        answer,
        emdf_answers::field_reply(emdf_fields::variable_bits(bytes, cursor, width, limit)),
    )
}

// What a range of bytes is.
pub fn emdf_classify(bytes: &[u8], answer: &mut [u8; 88]) -> u32
    ensures { Replies (class_reply (class_answer (classify bytes.now))) result answer.new }
{
    let class = openjoc_emdf::classify_emdf_carrier(bytes);
    let number = emdf_answers::class_number(class);
    emdf_rows::put_answer(answer, number, &emdf_answers::class_words(class))
}

// Reads the carrier; a row of 224 bytes a payload goes into the table.
pub fn emdf_read(bytes: &[u8], table: &mut [u8], answer: &mut [u8; 80]) -> u32
    ensures { ReadReplies (read_into bytes.now table.old) result answer.new table.old table.new }
{
    // Without `?`: a refusal is a number here too, and is stored.
    let (parsed, first) = match openjoc_emdf::open_carrier(bytes) {
        Ok(opened) => opened,
        Err(why) => return emdf_rows::put_refusal(answer, RecordsError::Emdf(why)),
    };
    let count = parsed.container.payloads;
    if table.len() / emdf_rows::ROW_BYTES < count {
        return emdf_rows::put_refusal(answer, RecordsError::TableTooShort { payloads: count });
    }
    let n = parsed.bytes_consumed.0;
    emdf_rows::put_rows(table, &bytes[..n], first, count);
    emdf_rows::put_reading(answer, 0, emdf_answers::parsed_words(parsed))
}

// The place of the payload with an id and an ordinal.
pub fn emdf_find_payload(bytes: &[u8], id: u64, ordinal: u64, answer: &mut [u8; 16]) -> u32
    ensures { Replies (two_reply (find_figures (find_payload id ordinal (reading bytes.now)))) result answer.new }
{
    let found = emdf_ordinals::find_payload(bytes, id, ordinal);
    emdf_rows::put_place(answer, found)
}

// Moves the body of a payload to the scratch, unless it starts on a byte of the carrier.
pub fn emdf_move_body(bytes: &[u8], place: usize, scratch: &mut [u8], answer: &mut [u8; 16]) -> u32
    ensures { MoveReplies bytes.now place scratch.old result answer.new scratch.new }
{
    let moved = emdf_bodies::move_body(bytes, place, scratch);
    emdf_rows::put_moved(answer, moved)
}

// The verdict on the carrier: profile 0 is strict, any other number compat.
pub fn emdf_verdict(bytes: &[u8], profile: u32, answer: &mut [u8; 40]) -> u32
    ensures { Replies (verdict_reply (verdict (profile_of profile) bytes.now)) result answer.new }
{
    let judged = joc_profile::validate_joc_profile_for(bytes, emdf_answers::profile_of(profile));
    let number = emdf_answers::verdict_number(judged);
    emdf_rows::put_answer(answer, number, &emdf_answers::verdict_words(judged))
}

// The source with another body at place, into the destination, as with the other edits.
pub fn emdf_edit_body(
    source: &[u8],
    place: usize,
    body: &[u8],
    destination: &mut [u8],
    answer: &mut [u8; 16],
) -> u32
    ensures { EditReplies (edited (body_edit place body.now) source.now destination.old) result answer.new destination.new }
{
    let edited = emdf_edit::replace_body(source, place, body, destination);
    emdf_rows::put_edited(answer, edited)
}

// Other settings at place: 144 bytes, as in a row of emdf_read.
pub fn emdf_edit_settings(
    source: &[u8],
    place: usize,
    settings: &[u8],
    destination: &mut [u8],
    answer: &mut [u8; 16],
) -> u32
    ensures { EditReplies (edited (settings_edit place (settings_of settings.now)) source.now destination.old) result answer.new destination.new }
{
    let config = emdf_settings_bytes::settings_of(settings);
    let edited = emdf_edit::replace_settings(source, place, config, destination);
    emdf_rows::put_edited(answer, edited)
}

// Without the payload at place.
pub fn emdf_edit_drop(
    source: &[u8],
    place: usize,
    destination: &mut [u8],
    answer: &mut [u8; 16],
) -> u32
    ensures { EditReplies (edited (drop_edit place) source.now destination.old) result answer.new destination.new }
{
    let edited = emdf_edit::drop_payload(source, place, destination);
    emdf_rows::put_edited(answer, edited)
}

// A payload more, before place.
pub fn emdf_edit_insert(
    source: &[u8],
    place: usize,
    id: u64,
    settings: &[u8],
    body: &[u8],
    destination: &mut [u8],
    answer: &mut [u8; 16],
) -> u32
    ensures { EditReplies (edited (insert_edit place id (settings_of settings.now) body.now) source.now destination.old) result answer.new destination.new }
{
    let config = emdf_settings_bytes::settings_of(settings);
    let edited = emdf_edit::insert_payload(source, place, id, config, body, destination);
    emdf_rows::put_edited(answer, edited)
}

// Another key id.
pub fn emdf_edit_key(source: &[u8], key: u64, destination: &mut [u8], answer: &mut [u8; 16]) -> u32
    ensures { EditReplies (edited (key_edit key) source.now destination.old) result answer.new destination.new }
{
    let edited = emdf_edit::replace_key(source, key, destination);
    emdf_rows::put_edited(answer, edited)
}

// Other protections.
pub fn emdf_edit_protection(
    source: &[u8],
    primary: &[u8],
    secondary: &[u8],
    destination: &mut [u8],
    answer: &mut [u8; 16],
) -> u32
    ensures { EditReplies (edited (protection_edit primary.now secondary.now) source.now destination.old) result answer.new destination.new }
{
    let edited = emdf_edit::replace_protection(source, primary, secondary, destination);
    emdf_rows::put_edited(answer, edited)
}

// The carrier of a key id and protections, without payloads.
pub fn emdf_blank(
    key: u64,
    primary: &[u8],
    secondary: &[u8],
    destination: &mut [u8],
    answer: &mut [u8; 16],
) -> u32
    ensures { EditReplies (blank key primary.now secondary.now destination.old) result answer.new destination.new }
{
    let edited = emdf_blank::blank_carrier(key, primary, secondary, destination);
    emdf_rows::put_edited(answer, edited)
}

// Whether a file is a recipe, and of how many edits.
pub fn emdf_check_recipe(recipe: &[u8], answer: &mut [u8; 16]) -> u32
    ensures { Replies (two_reply (checked_figures (check_answer (recipe_of recipe.now)))) result answer.new }
{
    let checked = emdf_recipe::check_recipe(recipe);
    emdf_recipe_bytes::put_checked(answer, checked)
}

// The edits of a recipe, one after another from the source on, in the two buffers by turns.
pub fn emdf_run_recipe(
    source: &[u8],
    recipe: &[u8],
    first: &mut [u8],
    second: &mut [u8],
    answer: &mut [u8; 24],
) -> u32
    ensures { RecipeReplies source.now recipe.now first.old second.old result answer.new first.new second.new }
{
    let ran = emdf_recipe_run::run_recipe(source, recipe, first, second);
    emdf_recipe_bytes::put_ran(answer, ran)
}
