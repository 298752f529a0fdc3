//! The name of one sheet: a type, so that shares of different sheets can't be mixed up.
ghost use Rattle.atomic_table.specs.Seated.{TableId};

use std::marker::Brand;

/// The name of one sheet, which distinguishes its shares and keepers from those of another. What belongs to a sheet
/// carries its name as a type parameter, so nothing of another sheet can be used in its place. Whoever opens a sheet
/// takes `Brand`, and picks the sheet's own table.
pub trait Books {
    ghost use Rattle.atomic_table.specs.Seated.{TableId};

    ghost table: { TableId };
}

impl Books for Brand {
    ghost use Rattle.kc_share.specs.Sheet.{no_table};

    ghost table = { no_table };
}
