// Views of a pool that overlap, in steps of either sign, and a view that gets a block of its own.
ghost use Rattle.std.specs.Prelude.{◌≡◌, ◌≢◌, ◌<◌, ◌+◌, ℕ, length, IfOk, OnOk};
ghost use Rattle.cell_core.specs.declared.cell.Kind.TheVariants.{Int64};
ghost use Rattle.cell_core.specs.Grids.{AreRowsBelow};
ghost use Rattle.block_pool.specs.Pools.{grid_at, IsSole};
ghost use Rattle.tests_tables.specs.Shared.{ShowsNumbers};

use block_pool::{Cols, Pool, ViewId};
use cell_core::{Cell, Kind, NoMemory, Rows};
use column_core::Column;
use std::alloc::Global;

fn added(pool: &mut Pool, column: Column) -> Result<ViewId, NoMemory>
    requires kind { column.kind ≡ Int64 }
    requires rows { length column.cells ≡ 5 }
    ensures { IfOk result (λ id. ShowsNumbers pool.new id.0 1 5) }
{
    let Ok(id) = pool.add(column.into_block()) else {
        return Err(NoMemory);
    };
    Ok(id)
}

fn five_numbers(alloc: Global, pool: &mut Pool) -> Result<ViewId, NoMemory>
    ensures { IfOk result (λ id. ShowsNumbers pool.new id.0 1 5) }
{
    let mut column = Column::new(alloc, Kind::Int64);
    column.push(Cell::Int(10))?;
    column.push(Cell::Int(20))?;
    column.push(Cell::Int(30))?;
    column.push(Cell::Int(40))?;
    column.push(Cell::Int(50))?;
    added(pool, column)
}

fn some_rows(pool: &mut Pool, of: ViewId, rows: Rows) -> ViewId
    requires shows { ShowsNumbers pool.old of.0 1 5 }
    requires rows { AreRowsBelow rows 5 }
    requires spare { 0 < pool.old.spare }
    ensures shows { ShowsNumbers pool.new result.0 1 rows.count }
    ensures others { (id columns rows : ℕ) → ShowsNumbers pool.old id columns rows → id ≢ result.0 }
    ensures kept { (id columns rows : ℕ) →
        ShowsNumbers pool.old id columns rows → ShowsNumbers pool.new id columns rows }
    ensures shared { ¬ IsSole pool.new result.0 }
    ensures spare { pool.new.spare + 1 ≡ pool.old.spare }
{
    pool.view(of, Cols { from: 0, count: 1 }, rows)
}

fn moved(pool: &mut Pool, id: ViewId) -> Result<(), NoMemory>
    requires shows { ShowsNumbers pool.old id.0 1 2 }
    requires shared { ¬ IsSole pool.old id.0 }
    ensures alone { OnOk result (IsSole pool.new id.0) }
    ensures kept { OnOk result ((id columns rows : ℕ) →
        ShowsNumbers pool.old id columns rows → ShowsNumbers pool.new id columns rows) }
{
    pool.own(id)
}

fn put(pool: &mut Pool, id: ViewId, row: usize, number: i64)
    requires shows { ShowsNumbers pool.old id.0 1 2 }
    requires sole { IsSole pool.old id.0 }
    requires row { row < 2 }
    ensures { (id columns rows : ℕ) →
        ShowsNumbers pool.old id columns rows → ShowsNumbers pool.new id columns rows }
{
    pool.set(id, 0, row, Cell::Int(number));
}

fn ended(pool: &mut Pool, id: ViewId, rows: usize)
    requires { ShowsNumbers pool.old id.0 1 rows }
    ensures { (other columns rows : ℕ) → other ≢ id.0 →
        ShowsNumbers pool.old other columns rows → ShowsNumbers pool.new other columns rows }
{
    pool.release(id);
}

fn has(pool: &Pool, id: ViewId, numbers: &[i64]) -> bool
    requires { ShowsNumbers pool.now id.0 1 (length numbers.now) }
{
    let cells = pool.column(id, 0);
    for row in 0..numbers.len() {
        if cells.cell(row) != Cell::Int(numbers[row]) {
            return false;
        }
    }
    true
}

#[test]
fn a_view_that_moves_leaves_the_others(rt: HostRuntime) -> Result<(), NoMemory> {
    let mut pool = Pool::new(rt.alloc());
    let all = five_numbers(rt.alloc(), &mut pool)?;
    pool.reserve_views(3)?;
    let back = Rows {
        start: 4,
        step: -1,
        count: 5,
    };
    let turned = some_rows(&mut pool, all, back);
    let two = some_rows(
        &mut pool,
        turned,
        Rows {
            start: 1,
            step: 2,
            count: 2,
        },
    );
    assert!(rt; has(&pool, turned, &[50, 40, 30, 20, 10]));
    assert!(rt; has(&pool, two, &[40, 20]));
    assert!(rt; pool.held() == 5 && !pool.sole(all));
    moved(&mut pool, two)?;
    assert!(rt; pool.held() == 7 && pool.sole(two));
    put(&mut pool, two, 1, 7);
    assert!(rt; has(&pool, two, &[40, 7]));
    assert!(rt; has(&pool, all, &[10, 20, 30, 40, 50]));
    assert!(rt; has(&pool, turned, &[50, 40, 30, 20, 10]));
    ended(&mut pool, turned, 5);
    assert!(rt; pool.sole(all));
    ended(&mut pool, all, 5);
    assert!(rt; pool.held() == 2);
    ended(&mut pool, two, 2);
    assert!(rt; pool.held() == 0);
    Ok(())
}
