// Merging: an object's bases, compiled, and its own record become one new object.
#![tactic(auto)]

ghost use Rattle.std.specs.Prelude.{◌≡◌, ◌≤◌, ◌*◌, ℕ, take, is_ok, IfErr};
ghost use Rattle.append.specs.Append.{Grown};
ghost use Rattle.error.specs.declared.Failure.TheVariants.{NoRoom};
ghost use Rattle.layout.specs.Layout.{schema_word, schema_words};
ghost use Rattle.compilation.specs.Table.{merge_at};
ghost use Rattle.derive.specs.Meets.{join_row, rows_of, used_after, told, Grows, Builds, SameLent, Takes, Lays, Finished, Rows, Rowed, Joinable, Fits, RowsReady};

use error::{Failure, Used};
use inherit::{Scalars, merged_note, merged_scalars, own_offer};
use joins::{Lists, Offers};
use layout::kind;
use layout::rows::{list_row, object_row};
use layout::words::{MOST_NOTES, MOST_SCHEMAS, NONE, NOTE_WORDS, SCHEMA_WORDS};
use merge::first_words;
use text::Texts;

// The most words that the two tables may use.
const NOTE_ROOM: usize = MOST_NOTES * NOTE_WORDS;

const SCHEMA_ROOM: usize = MOST_SCHEMAS * SCHEMA_WORDS;

// What compiling only reads: the tables that stay, and the used counts at entry.
#[derive(Clone, Copy)]
pub struct Origin<'a> {
    pub texts: Texts<'a, 'a>,
    pub registry: &'a [u32],
    pub base: Used,
}

// What compiling writes beside the links, which are appended while these are read: two tables that grow, and a stack of the new
// records' numbers. The links stay beside it: two fields of a struct behind `&mut` do not go into one call.
#[derive(Drop)]
pub struct Work<'a, 's> {
    pub notes: &'a mut [u32],
    pub schemas: &'a mut [u32],
    pub stack: &'s mut [u32],
}

impl Work<'_, '_> {
    // Word k of the schema s, of which there are us.
    pub fn field(&self, us: u32, s: u32, k: u32) -> u32
        ensures { result ≡ schema_word (take (us * schema_words) self.now.schemas.now) s k }
    {
        merge::field(self.schemas, us, s, k)
    }
}

// What a schema became: the record, whether it is a new one, and the used counts. `fresh` stands beside the number, no enum of both: which
// child's number stands on the stack is asked beside its number, of leaves and new records alike, and the definitions have both.
#[derive(Clone, Copy)]
pub struct Made {
    pub rec: u32,
    pub fresh: bool,
    pub used: Used,
}

// Appends words, where there is room.
fn add_words(t: &mut [u32], used: usize, limit: usize, new: &[u32]) -> Result<(), Failure>
    ensures grown { Grown limit t.old t.new used new.now (is_ok result) }
    ensures full { IfErr result (λ failure. failure ≡ NoRoom) }
{
    if append::append(t, used, limit, new) {
        Ok(())
    } else {
        Err(Failure::NoRoom)
    }
}

// Appends a schema record.
pub fn finish(schemas: &mut [u32], used: Used, rec: [u32; 16]) -> Result<Made, Failure>
    requires { used.schemas ≤ 4096 }
    ensures { Finished schemas.old schemas.new used rec (told used result) }
{
    let n = used.schemas;
    add_words(schemas, (n as usize) * SCHEMA_WORDS, SCHEMA_ROOM, &rec)?;
    Ok(Made {
        rec: n,
        fresh: true,
        used: Used {
            schemas: n + 1,
            ..used
        },
    })
}

// None, the one, or a new record of all that is offered, whose links stand at first.
fn join_row(
    schemas: &mut [u32],
    used: Used,
    kind: u32,
    first: u32,
    offers: Offers,
) -> Result<Made, Failure>
    requires { Joinable used offers }
    ensures { Rows schemas.old schemas.new used (join_row kind first offers) (told used result) }
{
    let n = offers.n;
    if n < 2 {
        return Ok(Made {
            rec: offers.last,
            fresh: false,
            used,
        });
    }
    let rec = list_row(kind, NONE, first, n as u32);
    finish(schemas, used, rec)
}

// The records of a merged object whose links stand at `at`: the joins of additional and of names, then the object.
fn merged_rows(
    schemas: &mut [u32],
    used: Used,
    note: u32,
    at: u32,
    lists: Lists,
    offers: Offers,
    named: Offers,
    scalars: Scalars,
) -> Result<Made, Failure>
    requires { RowsReady used at lists offers named }
    ensures { Rowed schemas.old schemas.new used (rows_of note at lists offers named scalars)
        (told used result) }
{
    let pn = lists.properties as u32;
    let qn = lists.patterns as u32;
    let rn = lists.required as u32;
    let an = lists.additional as u32;
    let a = join_row(schemas, used, kind::ALL_OF, at + (pn + qn + rn), offers)?;
    let n = join_row(
        schemas,
        a.used,
        kind::ANY_OF,
        at + (pn + qn + rn + an),
        named,
    )?;
    let shut = u32::from(scalars.closed);
    let rec = object_row(
        note,
        at,
        pn / 2,
        at + pn,
        qn / 2,
        a.rec,
        at + (pn + qn),
        rn,
        scalars.minimum,
        scalars.maximum,
        shut,
        n.rec,
        scalars.naming,
    );
    finish(schemas, n.used, rec)
}

// The used counts after a note and these lists.
fn after(used: Used, lists: Lists) -> Used
    requires { Fits used lists }
    ensures { result ≡ used_after used lists }
{
    let words = lists.properties + lists.patterns + lists.required + lists.additional + lists.names;
    Used {
        notes: used.notes + 1,
        schemas: used.schemas,
        links: used.links + (words as u32),
    }
}

// What a merged object takes of its bases and of the derived record, beside its lists.
#[derive(Clone, Copy)]
struct Taken {
    scalars: Scalars,
    additional: u32,
    names: u32,
    offers: Offers,
    named: Offers,
    note: [u32; 9],
}

fn take_bases(origin: &Origin, work: &Work, s: u32, used: Used, bases: &[u32]) -> Taken
    ensures { Takes origin.now.base used work.now s bases.now result }
{
    let base = origin.base;
    let notes = first_words(work.notes, (used.notes as usize) * NOTE_WORDS);
    let schemas = first_words(work.schemas, (used.schemas as usize) * SCHEMA_WORDS);
    let own_notes = first_words(work.notes, (base.notes as usize) * NOTE_WORDS);
    let own_schemas = first_words(work.schemas, (base.schemas as usize) * SCHEMA_WORDS);
    let scalars = merged_scalars(schemas, bases, own_schemas, s);
    let additional = own_offer(own_schemas, s, false);
    let names = own_offer(own_schemas, s, true);
    let offers = joins::count_offers(notes, schemas, bases, false, additional);
    let named = joins::count_offers(notes, schemas, bases, true, names);
    let note = merged_note(notes, schemas, bases, own_notes, own_schemas, s);
    Taken {
        scalars,
        additional,
        names,
        offers,
        named,
        note,
    }
}

// Appends the links of a merged object.
fn lay(
    origin: &Origin,
    work: &Work,
    links: &mut [u32],
    s: u32,
    used: Used,
    bases: &[u32],
    taken: Taken,
) -> Option<Lists>
    requires { origin.now.base.links ≤ used.links }
    ensures { Lays origin.now used work.now links.old links.new s bases.now taken result }
{
    let base = origin.base;
    let bound = used.links as usize;
    joins::lay_all(
        &origin.texts,
        first_words(work.notes, (used.notes as usize) * NOTE_WORDS),
        first_words(work.schemas, (used.schemas as usize) * SCHEMA_WORDS),
        links,
        bases,
        bound,
        first_words(work.schemas, (base.schemas as usize) * SCHEMA_WORDS),
        base.links as usize,
        s,
        taken.additional,
        taken.offers.n,
        taken.named.n,
        bound,
    )
}

// The merge, after the bases, a list of any length, are compiled and known to be objects. `used` stands beside the work, as in `take_bases`
// and `lay`: `build` hands on counts of its own at each level. The stack stays as it is, wherever its top is.
pub fn merge_object_schemas(
    origin: &Origin,
    work: &mut Work,
    links: &mut [u32],
    s: u32,
    used: Used,
    bases: &[u32],
) -> Result<Made, Failure>
    requires { Grows origin.now.base used }
    ensures made { (top : ℕ) → Builds origin.now work.old work.new links.old links.new used top
        (λ C st. merge_at C st s bases.now)
        result }
    ensures stack { work.new.stack.now ≡ work.old.stack.now }
    ensures lent { SameLent work.old work.new }
{
    let taken = take_bases(origin, work, s, used, bases);
    let noted = (used.notes as usize) * NOTE_WORDS;
    add_words(work.notes, noted, NOTE_ROOM, &taken.note)?;
    let Some(lists) = lay(origin, work, links, s, used, bases, taken) else {
        return Err(Failure::NoRoom);
    };
    let v = after(used, lists);
    merged_rows(
        work.schemas,
        v,
        used.notes,
        used.links,
        lists,
        taken.offers,
        taken.named,
        taken.scalars,
    )
}
