// The way up of a put.
ghost use Rattle.std.specs.Prelude.{◌*◌, ◌≤◌, length};
ghost use Rattle.store_model.specs.{Cells.cell_count, TreeCalls.need_of, TreeRegion.IsTreeArea};
ghost use Rattle.iso_tree.specs.{Rows.{AreBlocks, AreInside, AreUsable}, Props.row_props};

use store_model::Area;

/// What is left of the way up of a put: the key, the nodes that are left with the block and the count of each, their bytes in turn,
/// and the new blocks, of which there are enough.
#[derive(Drop)]
pub struct Way<'a> {
    pub area: Area,
    pub key: &'a [u8],
    pub path: &'a [(u32, u32)],
    pub nodes: &'a [u8],
    pub news: &'a [u32],
    ghost kind: { IsTreeArea area },
    ghost inside: { AreInside area path.now } by { Prim.hlevel row_props },
    ghost room: { length path.now * area.size ≤ length nodes.now },
    ghost usable: { AreUsable area.size nodes.now path.now } by { Prim.hlevel row_props },
    ghost blocks: { AreBlocks area news.now } by { Prim.hlevel row_props },
    ghost enough: { need_of (cell_count area.size) path.now ≤ length news.now },
}
