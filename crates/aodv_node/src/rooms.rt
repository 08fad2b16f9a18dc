//! Room in a core, made before anything in it changes.
ghost use Rattle.std.specs.Prelude.{◌≡◌, ◌≢◌, ◌<◌, ◌⊎◌, true, false, length, slice_index, IsOk, OnOk, OnErr, IsTrue};
ghost use Rattle.std.specs.FinSet as sets;
ghost use Rattle.mesh_base.specs.Members.{AreAmong};
ghost use Rattle.aodv_asked.specs.Requests.{is_near};
ghost use Rattle.aodv_handlers.specs.Shown.{core_of, IsInOrder};
ghost use Rattle.aodv_node.specs.Discovered.{follows};

use aodv_asked::Asked;
use aodv_handlers::Core;
use aodv_table::Table;
use mesh_base::NoMemory;

/// Makes room for an entry of d.
pub(crate) fn make_row<T: Table>(core: &mut Core<T>, d: usize) -> Result<(), NoMemory>
    requires order { IsInOrder T.nodes T.entries (T.nodes core.old.table) core.old }
    requires below { d < T.nodes core.old.table }
    ensures here { OnOk result (sets.contains (T.rooms core.new.table) d ≡ true) }
    ensures there { sets.contains (T.rooms core.old.table) d ≡ true → IsOk result }
    ensures keeps { AreAmong (T.rooms core.old.table) (T.rooms core.new.table) }
    ensures shown { core_of T.entries core.new ≡ core_of T.entries core.old }
    ensures nodes { T.nodes core.new.table ≡ T.nodes core.old.table }
    ensures order { IsInOrder T.nodes T.entries (T.nodes core.old.table) core.new }
{
    core.table.make_room(d)
}

/// Makes room for a datum for d, unless d is the node itself.
pub(crate) fn make_store<T: Table>(core: &mut Core<T>, d: usize) -> Result<(), NoMemory>
    requires order { IsInOrder T.nodes T.entries (T.nodes core.old.table) core.old }
    requires below { d < T.nodes core.old.table }
    ensures here { OnOk result (d ≢ core.new.me → 0 < slice_index core.new.waiting.rooms d) }
    ensures short { OnErr result (d ≢ core.old.me) }
    ensures shown { core_of T.entries core.new ≡ core_of T.entries core.old }
    ensures nodes { T.nodes core.new.table ≡ T.nodes core.old.table }
    ensures order { IsInOrder T.nodes T.entries (T.nodes core.old.table) core.new }
{
    if d == core.me {
        return Ok(());
    }
    core.waiting.make_room(d)
}

/// Makes room for a request of o's.
#[inline(always)]
pub(crate) fn make_request<T: Table>(core: &mut Core<T>, o: usize) -> Result<(), NoMemory>
    requires order { IsInOrder T.nodes T.entries (T.nodes core.old.table) core.old }
    requires below { o < T.nodes core.old.table }
    ensures here { OnOk result (0 < slice_index core.new.asked.rooms o) }
    ensures table { core.new.table ≡ core.old.table }
    ensures shown { core_of T.entries core.new ≡ core_of T.entries core.old }
    ensures order { IsInOrder T.nodes T.entries (T.nodes core.old.table) core.new }
{
    core.asked.make_room(o)
}

/// Makes room for the node's own request with this id. None is needed if the id before it was seen.
pub(crate) fn make_own_request<T: Table>(core: &mut Core<T>, id: u32) -> Result<(), NoMemory>
    requires order { IsInOrder T.nodes T.entries (T.nodes core.old.table) core.old }
    ensures here { OnOk result ((0 < slice_index core.new.asked.rooms core.new.me)
        ⊎ IsTrue (is_near core.new.asked.pairs core.new.me id)) }
    ensures short { OnErr result (follows core.old.asked.pairs core.old.me id ≡ false) }
    ensures table { core.new.table ≡ core.old.table }
    ensures shown { core_of T.entries core.new ≡ core_of T.entries core.old }
    ensures order { IsInOrder T.nodes T.entries (T.nodes core.old.table) core.new }
{
    let me = core.me;
    if follows_one(&core.asked, me, id) {
        return Ok(());
    }
    make_request(core, me)
}

// Whether o's request with the id before this one was seen.
fn follows_one(asked: &Asked, o: usize, id: u32) -> bool
    requires { o < length asked.now.rooms }
    ensures { result ≡ follows asked.now.pairs o id }
{
    0 < id && asked.has(o, id - 1)
}
