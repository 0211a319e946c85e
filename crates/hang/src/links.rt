//! The links of the names of a text.
ghost use Rattle.std.specs.Prelude.{◌≡◌, ◌≤◌, length};
ghost use Rattle.placing.specs.Links.{closed as closes, links_from, open_link};

use arrayvec::ArrayVec;
use grammar::limits::TEXT_LIMIT;
use grammar::stand::Standing;
use plan::tables::FreeLink;
use text::packed::Name;

/// The link of an open name.
pub(crate) fn open_link(name: Name, free: &[FreeLink]) -> Option<u16>
    ensures { result ≡ open_link name free.now }
{
    free.iter().find(|row| row.name == name).map(|row| row.link)
}

/// The link that a name of a text closes: it stands there once, and is open on the plan.
fn closed_link(standing: &Standing, free: &[FreeLink]) -> Option<u16>
    ensures { result ≡ closes free.now standing.now }
{
    if standing.twice {
        None
    } else {
        open_link(standing.name, free)
    }
}

/// The link of each name: the one that it closes, or the next unused number.
pub(crate) fn assign_links(
    standings: &[Standing],
    free: &[FreeLink],
    unused: &[u16],
) -> ArrayVec<u16, TEXT_LIMIT>
    requires { length standings.now ≤ 65535 }
    ensures { result.items ≡ links_from free.now unused.now standings.now }
{
    let mut links = ArrayVec::new();
    let mut numbers = unused.iter().copied();
    for standing in standings {
        // A `match`: a closure of `unwrap_or_else` would need clauses of its own for what it takes from the numbers.
        let link = match closed_link(standing, free) {
            Some(link) => link,
            None => numbers.next().unwrap_or(0),
        };
        links.push(link);
    }
    links
}
