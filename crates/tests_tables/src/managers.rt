// Columns of one kind that are put on one block.
ghost use Rattle.std.specs.Prelude.{◌≡◌, ◌<◌, length, All, OnOk};
ghost use Rattle.block_pool.specs.Pools.{IsSole};
ghost use Rattle.block_manager.specs.Parts.{HaveRows, IsSingle};
ghost use Rattle.block_manager.specs.Managed.{columns_on, StandsOn};

use crate::store::numbers;
use block_manager::Manager;
use block_pool::Pool;
use cell_core::{Cell, NoMemory};
use column_core::Block;

fn append(pool: &mut Pool, manager: &mut Manager, block: Block) -> Result<(), NoMemory>
    requires stands { StandsOn pool.old manager.old }
    requires alone { All (IsSole pool.old) manager.old.views }
    requires rows { HaveRows 2 (columns_on pool.old manager.old) }
    requires block { block.rows ≡ 2 }
    requires single { IsSingle block }
    ensures stands { StandsOn pool.new manager.new }
    ensures alone { OnOk result (All (IsSole pool.new) manager.new.views) }
    ensures rows { OnOk result (HaveRows 2 (columns_on pool.new manager.new)) }
{
    let last = manager.columns();
    match manager.put_column(pool, last, block) {
        Ok(()) => Ok(()),
        Err(_) => Err(NoMemory),
    }
}

fn has(manager: &Manager, pool: &Pool, column: usize, numbers: &[i64]) -> bool
    requires { StandsOn pool.now manager.now }
{
    if column >= manager.columns() {
        return false;
    }
    let cells = manager.column(pool, column);
    if cells.len() != numbers.len() {
        return false;
    }
    for row in 0..numbers.len() {
        if cells.cell(row) != Cell::Int(numbers[row]) {
            return false;
        }
    }
    true
}

#[test]
fn columns_of_one_kind_come_onto_one_block(rt: HostRuntime) -> Result<(), NoMemory> {
    let mut pool = Pool::new(rt.alloc());
    let mut manager = Manager::new(rt.alloc());
    append(&mut pool, &mut manager, numbers(rt.alloc(), 1, 2)?)?;
    append(&mut pool, &mut manager, numbers(rt.alloc(), 3, 4)?)?;
    assert!(rt; pool.held() == 4 && manager.columns() == 2);
    manager.consolidate(&mut pool)?;
    assert!(rt; has(&manager, &pool, 0, &[1, 2]) && has(&manager, &pool, 1, &[3, 4]));
    assert!(rt; pool.held() == 4 && manager.columns() == 2);
    // One column keeps the block of both.
    manager.remove_column(&mut pool, 0)?;
    assert!(rt; pool.held() == 4 && has(&manager, &pool, 0, &[3, 4]));
    manager.release(&mut pool);
    assert!(rt; pool.held() == 0);
    Ok(())
}
