// The calls of emdf_host, exported to C under their own names. docs/HOST.md has each byte form.
#![tactic(auto)]

ghost use Rattle.std.specs.Prelude.{◌≡◌};
ghost use Rattle.emdf_format.specs.Reading.{reading};
ghost use Rattle.emdf_format.specs.Calls.{classify};
ghost use Rattle.emdf_format.specs.Ordinals.{find_payload};
ghost use Rattle.emdf_format.specs.Profile.{verdict};
ghost use Rattle.emdf_format.specs.Edits.{body_edit, settings_edit, drop_edit, insert_edit, key_edit, protection_edit, edited, blank};
ghost use Rattle.openjoc_emdf.specs.Answers.{class_answer};
ghost use Rattle.emdf_answers.specs.Form.{version};
ghost use Rattle.emdf_answers.specs.Bits.{BitReplies, new_reply, remaining_reply, read_bits_reply, read_bit_reply, take_bits_reply, byte_align_reply};
ghost use Rattle.emdf_answers.specs.Fields.{FieldReplies, variable_bits_reply};
ghost use Rattle.emdf_answers.specs.Replies.{two_reply, Replies};
ghost use Rattle.emdf_answers.specs.Carriers.{read_into, ReadReplies, class_reply, MoveReplies, find_figures};
ghost use Rattle.emdf_answers.specs.Verdict.{profile_of, verdict_reply};
ghost use Rattle.emdf_answers.specs.Edits.{EditReplies};
ghost use Rattle.emdf_settings_bytes.specs.Settings.{settings_of};
ghost use Rattle.emdf_recipe.specs.File.{recipe_of, check_answer};
ghost use Rattle.emdf_recipe_bytes.specs.Recipes.{checked_figures, RecipeReplies};

// The version of what the calls take and answer; include/emdf.h has the same number.
#[unsafe(no_mangle)]
pub extern "C" fn emdf_version() -> u32
    ensures { result ≡ version }
{
    emdf_host::emdf_version()
}

#[unsafe(no_mangle)]
pub extern "C" fn emdf_bit_cursor(bytes: &[u8], answer: &mut [u8; 48]) -> u32
    ensures { BitReplies (new_reply bytes.now) result answer.new }
{
    emdf_host::emdf_bit_cursor(bytes, answer)
}

#[unsafe(no_mangle)]
pub extern "C" fn emdf_bits_remaining(
    bytes: &[u8],
    position: usize,
    end: usize,
    answer: &mut [u8; 48],
) -> u32
    ensures { BitReplies (remaining_reply bytes.now position end) result answer.new }
{
    emdf_host::emdf_bits_remaining(bytes, position, end, answer)
}

#[unsafe(no_mangle)]
pub extern "C" fn emdf_read_bits(
    bytes: &[u8],
    position: usize,
    end: usize,
    width: u8,
    answer: &mut [u8; 48],
) -> u32
    ensures { BitReplies (read_bits_reply bytes.now position end width) result answer.new }
{
    emdf_host::emdf_read_bits(bytes, position, end, width, answer)
}

#[unsafe(no_mangle)]
pub extern "C" fn emdf_read_bit(
    bytes: &[u8],
    position: usize,
    end: usize,
    answer: &mut [u8; 48],
) -> u32
    ensures { BitReplies (read_bit_reply bytes.now position end) result answer.new }
{
    emdf_host::emdf_read_bit(bytes, position, end, answer)
}

#[unsafe(no_mangle)]
pub extern "C" fn emdf_take_bits(
    bytes: &[u8],
    position: usize,
    end: usize,
    count: usize,
    answer: &mut [u8; 48],
) -> u32
    ensures { BitReplies (take_bits_reply bytes.now position end count) result answer.new }
{
    emdf_host::emdf_take_bits(bytes, position, end, count, answer)
}

#[unsafe(no_mangle)]
pub extern "C" fn emdf_byte_align(
    bytes: &[u8],
    position: usize,
    end: usize,
    answer: &mut [u8; 48],
) -> u32
    ensures { BitReplies (byte_align_reply bytes.now position end) result answer.new }
{
    emdf_host::emdf_byte_align(bytes, position, end, answer)
}

// A variable field and its groups, with the cursor after it, also where it is refused.
#[unsafe(no_mangle)]
pub extern "C" fn emdf_variable_bits(
    bytes: &[u8],
    position: usize,
    end: usize,
    width: u8,
    limit: u8,
    answer: &mut [u8; 56],
) -> u32
    ensures { FieldReplies (variable_bits_reply bytes.now position end width limit) result answer.new }
{
    emdf_host::emdf_variable_bits(bytes, position, end, width, limit, answer)
}

// What a range of bytes is.
#[unsafe(no_mangle)]
pub extern "C" fn emdf_classify(bytes: &[u8], answer: &mut [u8; 88]) -> u32
    ensures { Replies (class_reply (class_answer (classify bytes.now))) result answer.new }
{
    emdf_host::emdf_classify(bytes, answer)
}

// Reads the carrier; a row of 224 bytes a payload goes into the table.
#[unsafe(no_mangle)]
pub extern "C" fn emdf_read(bytes: &[u8], table: &mut [u8], answer: &mut [u8; 80]) -> u32
    ensures { ReadReplies (read_into bytes.now table.old) result answer.new table.old table.new }
{
    emdf_host::emdf_read(bytes, table, answer)
}

// The place of the payload with an id and an ordinal.
#[unsafe(no_mangle)]
pub extern "C" fn emdf_find_payload(
    bytes: &[u8],
    id: u64,
    ordinal: u64,
    answer: &mut [u8; 16],
) -> u32
    ensures { Replies (two_reply (find_figures (find_payload id ordinal (reading bytes.now)))) result answer.new }
{
    emdf_host::emdf_find_payload(bytes, id, ordinal, answer)
}

// Moves the body of a payload to the scratch, unless it starts on a byte of the carrier.
#[unsafe(no_mangle)]
pub extern "C" fn emdf_move_body(
    bytes: &[u8],
    place: usize,
    scratch: &mut [u8],
    answer: &mut [u8; 16],
) -> u32
    ensures { MoveReplies bytes.now place scratch.old result answer.new scratch.new }
{
    emdf_host::emdf_move_body(bytes, place, scratch, answer)
}

// The verdict on the carrier: profile 0 is strict, any other number compat.
#[unsafe(no_mangle)]
pub extern "C" fn emdf_verdict(bytes: &[u8], profile: u32, answer: &mut [u8; 40]) -> u32
    ensures { Replies (verdict_reply (verdict (profile_of profile) bytes.now)) result answer.new }
{
    emdf_host::emdf_verdict(bytes, profile, answer)
}

// The source with another body at place, into the destination, as with the other edits.
#[unsafe(no_mangle)]
pub extern "C" fn emdf_edit_body(
    source: &[u8],
    place: usize,
    body: &[u8],
    destination: &mut [u8],
    answer: &mut [u8; 16],
) -> u32
    ensures { EditReplies (edited (body_edit place body.now) source.now destination.old) result answer.new destination.new }
{
    emdf_host::emdf_edit_body(source, place, body, destination, answer)
}

// Other settings at place: 144 bytes, as in a row of emdf_read.
#[unsafe(no_mangle)]
pub extern "C" fn emdf_edit_settings(
    source: &[u8],
    place: usize,
    settings: &[u8],
    destination: &mut [u8],
    answer: &mut [u8; 16],
) -> u32
    ensures { EditReplies (edited (settings_edit place (settings_of settings.now)) source.now destination.old) result answer.new destination.new }
{
    emdf_host::emdf_edit_settings(source, place, settings, destination, answer)
}

// Without the payload at place.
#[unsafe(no_mangle)]
pub extern "C" fn emdf_edit_drop(
    source: &[u8],
    place: usize,
    destination: &mut [u8],
    answer: &mut [u8; 16],
) -> u32
    ensures { EditReplies (edited (drop_edit place) source.now destination.old) result answer.new destination.new }
{
    emdf_host::emdf_edit_drop(source, place, destination, answer)
}

// A payload more, before place.
#[unsafe(no_mangle)]
pub extern "C" fn emdf_edit_insert(
    source: &[u8],
    place: usize,
    id: u64,
    settings: &[u8],
    body: &[u8],
    destination: &mut [u8],
    answer: &mut [u8; 16],
) -> u32
    ensures { EditReplies (edited (insert_edit place id (settings_of settings.now) body.now) source.now destination.old) result answer.new destination.new }
{
    emdf_host::emdf_edit_insert(source, place, id, settings, body, destination, answer)
}

// Another key id.
#[unsafe(no_mangle)]
pub extern "C" fn emdf_edit_key(
    source: &[u8],
    key: u64,
    destination: &mut [u8],
    answer: &mut [u8; 16],
) -> u32
    ensures { EditReplies (edited (key_edit key) source.now destination.old) result answer.new destination.new }
{
    emdf_host::emdf_edit_key(source, key, destination, answer)
}

// Other protections.
#[unsafe(no_mangle)]
pub extern "C" fn emdf_edit_protection(
    source: &[u8],
    primary: &[u8],
    secondary: &[u8],
    destination: &mut [u8],
    answer: &mut [u8; 16],
) -> u32
    ensures { EditReplies (edited (protection_edit primary.now secondary.now) source.now destination.old) result answer.new destination.new }
{
    emdf_host::emdf_edit_protection(source, primary, secondary, destination, answer)
}

// The carrier of a key id and protections, without payloads.
#[unsafe(no_mangle)]
pub extern "C" fn emdf_blank(
    key: u64,
    primary: &[u8],
    secondary: &[u8],
    destination: &mut [u8],
    answer: &mut [u8; 16],
) -> u32
    ensures { EditReplies (blank key primary.now secondary.now destination.old) result answer.new destination.new }
{
    emdf_host::emdf_blank(key, primary, secondary, destination, answer)
}

// Whether a file is a recipe, and of how many edits.
#[unsafe(no_mangle)]
pub extern "C" fn emdf_check_recipe(recipe: &[u8], answer: &mut [u8; 16]) -> u32
    ensures { Replies (two_reply (checked_figures (check_answer (recipe_of recipe.now)))) result answer.new }
{
    emdf_host::emdf_check_recipe(recipe, answer)
}

// The edits of a recipe, one after another from the source on, in the two buffers by turns.
#[unsafe(no_mangle)]
pub extern "C" fn emdf_run_recipe(
    source: &[u8],
    recipe: &[u8],
    first: &mut [u8],
    second: &mut [u8],
    answer: &mut [u8; 24],
) -> u32
    ensures { RecipeReplies source.now recipe.now first.old second.old result answer.new first.new second.new }
{
    emdf_host::emdf_run_recipe(source, recipe, first, second, answer)
}
