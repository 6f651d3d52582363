// The texts of the demonstration.
ghost use Rattle.std.specs.Prelude.{◌≡◌, ◌≤◌, ◌^◌, ◌++◌, IfOk, OnOk, decimal, string_bytes};
ghost use Rattle.meaning_words.specs.Demonstration.{demo_script, order_line, orders_file, orders_name, quantity};

use itoa::Buffer;
use std::alloc::{AllocError, Global};

/// The script of the demonstration.
pub fn demo_script() -> &'static str
    ensures { result.now ≡ demo_script }
{
    "orders = pd.read_csv(\"orders\")\n\
     orders[\"total\"] = orders[\"qty\"] * orders[\"price\"]\n\
     by = orders.groupby(\"customer\")[\"total\"].sum()\n\
     print(by)\n\
     print(orders[\"total\"].rolling(3, min_periods=1).max().sum())\n\
     print(len(orders))\n"
}

/// The name of the file that the script reads, which is its path too.
pub fn orders_name() -> &'static str
    ensures { result.now ≡ orders_name }
{
    "orders"
}

/// The file of so many orders, one on each line below the header.
pub(crate) fn orders_file(alloc: Global, orders: u32) -> Result<String, AllocError>
    ensures { IfOk result (λ file. string_bytes file ≡ orders_file orders) }
{
    let mut file = String::from_str(alloc, "id,customer,qty,price\n")?;
    for before in 0..orders {
        push_order(&mut file, u64::from(before) + 1)?;
    }
    Ok(file)
}

// Appends the record of an order by its number.
fn push_order(file: &mut String, order: u64) -> Result<(), AllocError>
    requires { order ≤ 2 ^ 32 }
    ensures { OnOk result (string_bytes file.new ≡ string_bytes file.old ++ order_line order) }
{
    push_number(file, order)?;
    file.push_str(",c")?;
    push_number(file, 7 * order % 10)?;
    file.push_str(",")?;
    push_quantity(file, order)?;
    file.push_str(",")?;
    push_number(file, 100 + 37 * order % 500)?;
    file.push_str("\n")?;
    Ok(())
}

// Appends how many pieces an order has.
fn push_quantity(file: &mut String, order: u64) -> Result<(), AllocError>
    requires { order ≤ 2 ^ 32 }
    ensures { OnOk result (string_bytes file.new ≡ string_bytes file.old ++ quantity order) }
{
    if order % 11 == 0 {
        return Ok(());
    }
    push_number(file, 13 * order % 9)
}

fn push_number(file: &mut String, number: u64) -> Result<(), AllocError>
    ensures { OnOk result (string_bytes file.new ≡ string_bytes file.old ++ decimal number) }
{
    let mut digits = Buffer::new();
    file.push_str(digits.format(number))
}
