//! The links of a mesh.
ghost use Rattle.std.specs.Prelude.{◌≡◌, ◌<◌, ◌≤◌, false, MatchOption, Some, None};
ghost use Rattle.std.specs.FinSet as sets;
ghost use Rattle.mesh_base.specs.declared.limits.TheConstants.{MOST_NODES};
ghost use Rattle.mesh_checkpoint.specs.Formats.{get_rising};
ghost use Rattle.mesh_checkpoint.specs.Checkpoint as model;
ghost use Rattle.mesh_restore.specs.RadioParts.{IsLinkKept, AreLinksRead, ArePassed};

use mesh_checkpoint::reading::{Link, read_link, rise};
use mesh_radio::Radio;

/// The bytes after `count` links, which come by rising pair.
pub(crate) fn behind_links(count: u16, bytes: &[u8], nodes: u32) -> Option<&[u8]>
    requires { nodes ≤ MOST_NODES }
    ensures { let read = get_rising model.link_key (model.link nodes).get count 0 bytes.now in
        MatchOption result (read ≡ None) (λ x. ArePassed read x.now) }
{
    let mut rest = bytes;
    let mut low = 0;
    for _ in 0..count {
        let (link, behind) = read_link(rest, nodes)?;
        low = rise(low, link.key())?;
        rest = behind;
    }
    Some(rest)
}

// Makes a link that has never stood, and cuts it again unless it is to stand.
fn keep(radio: &mut Radio, link: Link)
    requires rising { link.a < link.b }
    requires below { link.b < radio.old.size }
    requires new { sets.contains radio.old.links (link.a, link.b) ≡ false }
    ensures { IsLinkKept radio.old radio.new (link.a, link.b) link.stands }
{
    radio.link(link.a, link.b);
    if link.stands {
        return;
    }
    radio.cut(link.a, link.b);
}

/// Puts `count` links, by rising pair, into a radio in which none has ever stood: each of them
/// stands, or has stood. Answers the bytes after them.
pub(crate) fn link_all<'b>(
    radio: &mut Radio,
    count: u16,
    bytes: &'b [u8],
    nodes: u32,
) -> Option<&'b [u8]>
    requires few { nodes ≤ MOST_NODES }
    requires size { radio.old.size ≡ nodes }
    requires links { radio.old.links ≡ sets.empty }
    requires ever { radio.old.ever ≡ sets.empty }
    ensures { let read = get_rising model.link_key (model.link nodes).get count 0 bytes.now in
        MatchOption result (read ≡ None) (λ x. AreLinksRead read radio.old radio.new x.now) }
{
    let mut rest = bytes;
    let mut low = 0;
    for _ in 0..count {
        let (link, behind) = read_link(rest, nodes)?;
        low = rise(low, link.key())?;
        keep(radio, link);
        rest = behind;
    }
    Some(rest)
}
