ghost use Rattle.std.specs.Prelude.{◌≡◌, IfOk, Some, ◌++◌, ℕ, false, OnOk, None};
ghost use Rattle.st_base.specs.Rules.{Answers};
ghost use Rattle.st_base.specs.Work.{one_file};
ghost use Rattle.st_plain.specs.Plain.{canonical, canonical_items, IsProper, ItemsAreProper};
ghost use Rattle.st_plain.specs.Objects.{items_of};
ghost use Rattle.st_plain.specs.Shapes.{json_in};
ghost use Rattle.st_params.specs.ParamsValue.{ParamsValue};
ghost use Rattle.st_datafiles.specs.Chunk.{chunk_rule_name, chunk_json_rules, chunk_rules, deltas_of, has_chunk_form, chunk_json, first_failing_chunk_rule};

use st_base::{Bytes, FileRefused, List, Shared, WantOfMemory, Work};
use st_canon::{PackedJson, append, append_comma};
use st_params::Params;
use st_scan::{CanonicalText, Entries, Scanned, entries_in};
use std::alloc::Global;

/// The rules of a chunk file, in their order.
#[derive(Clone, Copy, Debug, PartialEq, Eq)]
pub enum ChunkRule {
    /// The file has more than `max_chunk` bytes.
    K1,
    /// It isn't read as JSON with whole numbers.
    K2,
    /// It isn't an object with exactly `deltas`, a list.
    K3,
    /// The number of deltas isn't that of creates, recovers and updates together.
    K4,
}

impl ChunkRule {
    /// The name of the rule: a letter for the kind of file, and its number, as `K4`.
    pub fn name(&self) -> &'static str
        ensures { result.now ≡ chunk_rule_name self.now }
    {
        match self {
            ChunkRule::K1 => "K1",
            ChunkRule::K2 => "K2",
            ChunkRule::K3 => "K3",
            ChunkRule::K4 => "K4",
        }
    }
}

/// Why a chunk file is not accepted.
pub type ChunkRefused = FileRefused<ChunkRule>;

// The text before the first delta of a canonical chunk file.
const FRONT: &str = "{\"deltas\":[";

/// The deltas of a chunk file that must have `wanted` of them, each in compact form. It counts as
/// one file, whatever the answer is.
///
/// The result is `Rejected` if and only if the file fails a rule; it has the first one.
pub fn read_chunk(
    alloc: Global,
    file: &Shared<Bytes>,
    deltas: usize,
    params: &Params,
    work: &mut Work,
) -> Result<List<PackedJson>, ChunkRefused>
    ensures answers { Answers (chunk_rules params.now deltas file.now) (Some (deltas_of (json_in file.now))) result }
    ensures counted { work.new ≡ one_file work.old }
{
    work.tick_files();
    let bytes = file.get().as_slice();
    if bytes.len() > params.max_chunk() {
        return Err(FileRefused::Rejected(ChunkRule::K1));
    }
    match CanonicalText::read_json(alloc, bytes)? {
        Some(chunk) => wanted_in(alloc, &chunk.root(), file, deltas),
        None => Err(FileRefused::Rejected(ChunkRule::K2)),
    }
}

// The same, from the JSON of the file, in which the deltas are looked for.
fn wanted_in(
    alloc: Global,
    chunk: &Scanned<'_>,
    file: &Shared<Bytes>,
    wanted: usize,
) -> Result<List<PackedJson>, ChunkRefused>
    ensures { Answers (chunk_json_rules wanted (Some chunk.now)) (Some (deltas_of (Some chunk.now))) result }
{
    if !has_chunk_form(chunk) {
        return Err(FileRefused::Rejected(ChunkRule::K3));
    }
    let deltas = deltas_of(chunk);
    if deltas.count() != wanted {
        return Err(FileRefused::Rejected(ChunkRule::K4));
    }
    Ok(pack_all(alloc, deltas, file)?)
}

// A delta shares its text with the file if it is there, after the previous one and a comma.
fn pack_all(
    alloc: Global,
    deltas: Entries<'_>,
    file: &Shared<Bytes>,
) -> Result<List<PackedJson>, WantOfMemory>
    ensures { IfOk result (λ packed. packed ≡ deltas.entry) }
{
    let mut packed = List::new(alloc);
    let mut left = deltas;
    let mut at = FRONT.len();
    'deltas: while let Some(delta) = left.next() {
        let text = delta.as_slice();
        packed.push(alloc, PackedJson::keep_within(alloc, text, file, at)?)?;
        at = at.saturating_add(text.len()).saturating_add(1);
    }
    Ok(packed)
}

#[tactic(auto, unfolding(crate::specs::Chunk::has_chunk_form))]
fn has_chunk_form(chunk: &Scanned<'_>) -> bool
    ensures { result ≡ has_chunk_form (Some chunk.now) }
{
    match chunk.only_member("deltas") {
        Some(deltas) => deltas.is_list(),
        None => false,
    }
}

#[tactic(auto, unfolding(crate::specs::Chunk::deltas_of))]
fn deltas_of<'a>(chunk: &Scanned<'a>) -> Entries<'a>
    ensures { result ≡ deltas_of (Some chunk.now) }
{
    entries_in(chunk.member("deltas"))
}

/// The canonical text of the chunk file of these deltas, whose stored texts are copied unchanged.
/// Without deltas `deltas` is left out.
pub fn write_chunk(alloc: Global, deltas: &[PackedJson]) -> Result<Bytes, WantOfMemory>
    ensures text { IfOk result (λ text. text ≡ canonical (chunk_json deltas.now)) }
    // If the text fails no rule, it is read as the same deltas, however deep they nest.
    ensures read { IfOk result (λ text. (limits : ParamsValue) (wanted : ℕ) → first_failing_chunk_rule limits wanted text ≡ None
        → deltas_of (json_in text) ≡ deltas.now) }
{
    if deltas.len() == 0 {
        return Ok(Bytes::from_slice(alloc, b"{}")?);
    }
    let mut text = Bytes::new(alloc);
    text.push_all(alloc, b"{\"deltas\":[")?;
    append_deltas(alloc, &mut text, deltas)?;
    text.push_all(alloc, b"]}")?;
    Ok(text)
}

// Appends deltas with commas between them.
fn append_deltas(alloc: Global, out: &mut Bytes, deltas: &[PackedJson]) -> Result<(), WantOfMemory>
    ensures text { OnOk result (out.new ≡ out.old ++ canonical_items false (items_of deltas.now)) }
    ensures proper { OnOk result (ItemsAreProper (items_of deltas.now)) }
{
    let mut comma = false;
    'deltas: for delta in deltas {
        append_comma(alloc, out, comma)?;
        append_delta(alloc, out, delta)?;
        comma = true;
    }
    Ok(())
}

// A delta, as its stored text if it has one.
fn append_delta(alloc: Global, out: &mut Bytes, delta: &PackedJson) -> Result<(), WantOfMemory>
    ensures text { OnOk result (out.new ≡ out.old ++ canonical delta.now) }
    ensures proper { OnOk result (IsProper delta.now) }
{
    match delta.text() {
        Some(kept) => out.push_all(alloc, kept),
        None => {
            let value = delta.unpack(alloc)?;
            append(alloc, out, &value)
        }
    }
}
