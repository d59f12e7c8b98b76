// Whether one chunk of the chain is as it should be, by its kind. Its place in a bin is not looked at here.
ghost use Rattle.std.specs.Prelude.{◌≡◌};
ghost use Rattle.survey.specs.Chunks.{Followed, examine_m};

use crate::header::Header;
use crate::visit::Visit;
use record::heap::Summary;
use record::kinds::Kind;
use region::IN_USE;

// A free chunk has its size in its third word.
pub fn examine_free(region: &[u32], visit: Visit, summary: Summary) -> Option<Kind>
    requires followed { Followed region.now summary visit }
    requires link_value { visit.link ≡ visit.before.0 }
    ensures { result ≡ examine_m region.now summary visit }
{
    let chunk = visit.chunk;
    let header = Header { region, chunk };
    if header.size() != visit.next - chunk.0 {
        return None;
    }
    if chunk == summary.top {
        return header.is_top(summary, visit.next).then_some(Kind::Top);
    }
    if chunk == summary.donor {
        return header.is_donor(summary).then_some(Kind::Donor);
    }
    Some(Kind::Ordinary)
}

// The kind of the chunk, if nothing is wrong with it.
// The place of the chunk before is a multiple of 8, so that one comparison of the second word tests the backward link and the flags.
pub fn examine(region: &[u32], visit: Visit, summary: Summary) -> Option<Kind>
    requires { Followed region.now summary visit }
    ensures { result ≡ examine_m region.now summary visit }
{
    if visit.link == visit.before.0 + IN_USE {
        return Some(Kind::InUse);
    }
    if visit.link != visit.before.0 {
        return None;
    }
    examine_free(region, visit, summary)
}
