// Objectives put (RFC 8990, section 2.10.1).
ghost use Rattle.std.specs.Prelude.{◌+◌};
ghost use Rattle.encode.specs.Put.{Wrote};
ghost use Rattle.rfc8990.specs.Encoding.{encode_obj};
ghost use Rattle.description.specs.Meaning.{obj_of};

use crate::put;
use description::counts;
use description::rows::ObjectiveRow;
use options::Span;

pub(crate) fn put_objective_row(out: &mut [u8], at: usize, source: &[u8], o: ObjectiveRow) -> usize
    ensures { Wrote out.old out.new at (encode_obj (obj_of source.now o)) result }
{
    let more = counts::one_more(source, o.value);
    let a = put::head(out, at, 4, 3 + more);
    let b = put::part_string(out, a, 3, source, o.name);
    let c = put::head(out, b, 0, o.flags);
    let d = put::head(out, c, 0, o.count);
    put::part(out, d, source, o.value)
}
