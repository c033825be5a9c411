//! The view.

ghost use Rattle.std.specs.Prelude.{◌≡◌, IfSome, IsFalse};
ghost use Rattle.std.proofs.Props.{props};
ghost use Rattle.dfs_host.specs.Host.{Told};
ghost use Rattle.dfs_record.specs.Valid.{IsValue-prop};
ghost use Rattle.dfs_view.specs.Apart.{AreApart-prop};
ghost use Rattle.dfs_record.specs.Record.{IsEntry, IsValue};
ghost use Rattle.dfs_view.specs.Layers.{AreFit, Stand, entry_left as entry_left_by};

use crate::Layers;
use crate::children::{children, has_child};
use crate::layers::add;
use crate::lookup::find;
use dfs_host::{Fault, Host};
use dfs_record::{DirId, Entry, Key, Record, Value};
use dfs_space::{Listing, Space};
use std::alloc::Global;

/// The namespace of a job, over a host and the job's layers, both of which it borrows. After a fault it is spent.
#[derive(Drop)]
pub struct View<'a, 'b, H: Host> {
    alloc: Global,
    host: &'a mut H,
    layers: &'b mut Layers,
    spent: bool,
    pub ghost fit: { IsFalse spent → AreFit layers.now },
    pub ghost stand: { IsFalse spent → Told (H.state host.now) (Stand (H.state host.now) layers.now) } by { Prim.hlevel (props, AreApart-prop, IsValue-prop) },
}

impl<'a, 'b, H: Host> View<'a, 'b, H> {
    pub fn new(alloc: Global, host: &'a mut H, layers: &'b mut Layers) -> View<'a, 'b, H>
        requires fit { AreFit layers.old }
        requires stand { Told (H.state host.old) (Stand (H.state host.old) layers.old) }

        // It holds these two references, so that what is behind the view's at its end is behind the caller's.
        ensures same_host { result.host.ghost_name ≡ host.entry.ghost_name }
        ensures same_layers { result.layers.ghost_name ≡ layers.entry.ghost_name }
        ensures host { result.host.now ≡ host.old }
        ensures layers { result.layers.now ≡ layers.old }
        ensures live { IsFalse result.spent }
    {
        View {
            alloc,
            host,
            layers,
            spent: false,
        }
    }
}

/// Its map is what the records of the selected change sets and of the layers leave.
impl<'a, 'b, H: Host> Space for View<'a, 'b, H> {
    ghost use Rattle.std.specs.Prelude.{◌≡◌, IsTrue};
    ghost use Rattle.dfs_view.specs.Layers.{layers_map};
    ghost use Rattle.dfs_view.specs.View.{ViewFollows};
    ghost use Rattle.dfs_view.specs.Going.{view_follows_itself, view_follows_on};

    ghost StandsFor = { λ v m. IsTrue (H.state v.host.now).tells × (m ≡ layers_map (H.state v.host.now) v.layers.now) };

    ghost state = { λ v. record {
      tells = (H.state v.host.now).tells;
      disk_faults = (H.state v.host.now).disk_faults;
      reads = (H.state v.host.now).reads;
      spent = v.spent;
      refused = v.layers.now.log.refused;
    } };

    ghost follows = { λ v w records. ViewFollows
        (record { host_name = v.host.ghost_name; layers_name = v.layers.ghost_name; host = H.state v.host.now; layers = v.layers.now; spent = v.spent })
        (record { host_name = w.host.ghost_name; layers_name = w.layers.ghost_name; host = H.state w.host.now; layers = w.layers.now; spent = w.spent })
        records };

    ghost AfterFault = { λ v. IsTrue v.spent };

    ghost told = { λ v m stands. stands.0 };

    ghost follows_itself = { λ v. view_follows_itself _ v.fit };

    ghost follows_on = { λ v w x rs ss. view_follows_on _ _ _ rs ss };

    fn lookup(&mut self, key: &Key) -> Result<Option<Entry>, Fault> {
        self.spent = true;
        let found = find(self.alloc, self.host, self.layers, key.lend())?;
        self.spent = false;
        Ok(entry_left(found))
    }

    fn any_child(&mut self, dir: DirId) -> Result<bool, Fault> {
        self.spent = true;
        let Ok(has) = has_child(self.alloc, self.layers, dir) else {
            return Err(Fault::NoMemory);
        };
        self.spent = false;
        Ok(has)
    }

    fn list(&mut self, dir: DirId) -> Result<Listing, Fault> {
        self.spent = true;
        let Ok(listing) = children(self.alloc, self.layers, dir) else {
            return Err(Fault::NoMemory);
        };
        self.spent = false;
        Ok(listing)
    }

    fn store(&mut self, rec: Record) -> Result<(), Fault> {
        self.spent = true;
        add(self.alloc, self.host, self.layers, rec)?;
        self.spent = false;
        Ok(())
    }
}

// The entry that the last value of a key leaves there.
fn entry_left(found: Option<Value>) -> Option<Entry>
    ensures entry { result ≡ entry_left_by found }
    ensures valid { IfSome found IsValue → IfSome result IsEntry }
{
    match found {
        Some(Value::Put(entry)) => Some(entry),
        Some(Value::Del) | None => None,
    }
}
