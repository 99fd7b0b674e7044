//! Entries of maps by name.

ghost use Rattle.std.specs.Prelude.{◌≡◌, ◌∷◌, ◌++◌, ◌<◌, [], IfErr, OnErr, OnOk, Vec, ℕ};
ghost use Rattle.std.specs.Str.{bytes_eq};
ghost use Rattle.std.specs.declared.alloc.Global.{Global};
ghost use Rattle.indexmap.specs.IndexMap.{index_map_len, insert_entry};

use crate::fault::CatalogFault;
use crate::index_def::IndexDef;
use indexmap::IndexMap;
use pg_base::TableNo;

/// Puts a value under a key, the last where the key is new. The error means that memory ran out.
pub(crate) fn put<V: Drop>(
    map: &mut IndexMap<Vec<u8>, V>,
    key: Vec<u8>,
    value: V,
) -> Result<(), CatalogFault>
    ensures entries { OnOk result (map.new.entries ≡ insert_entry (λ a b. bytes_eq a.items b.items) map.old.entries key value) }
    ensures memory { IfErr result (λ e. e ≡ CatalogFault.Memory) }
    ensures unchanged { OnErr result (map.new.entries ≡ map.old.entries) }
{
    map.insert(key, value)?;
    Ok(())
}

/// Takes out the last index and gives its table.
pub(crate) fn take_last(indexes: &mut IndexMap<Vec<u8>, IndexDef>) -> TableNo
    requires { 0 < index_map_len indexes.old }
    ensures { (name : Vec ℕ Global) × (def : IndexDef) × (indexes.old.entries ≡ indexes.new.entries ++ (name, def) ∷ []) × (result ≡ def.table) }
{
    let (_, def) = indexes.pop().unwrap();
    def.table
}
