//! Appends the records of the tables to their files.
ghost use Rattle.std.specs.Prelude.{◌≡◌, ◌∷◌, ◌++◌, ◌<◌, [], codes, decimal, map, OnOk};
ghost use Rattle.demo_files.specs.Files.{record_text};
ghost use Rattle.demo_files.specs.Shop.{customer, item, order, product, product_of_item as product_of};

use base_io::NoMemory;

pub const PRODUCTS: u64 = 20_000;

pub const ITEMS: u64 = 400_000;

pub const ORDERS: u64 = 200_000;

pub const CUSTOMERS: u64 = 50_000;

// Appends a number and a comma.
fn push_field(file: &mut Vec<u8>, number: u64) -> Result<(), NoMemory>
    ensures { OnOk result (file.new.items ≡ file.old.items ++ decimal number ++ 44 ∷ []) }
{
    let mut digits = itoa::Buffer::new();
    file.extend_from_slice(digits.format(number).as_bytes())?;
    file.push(b',')?;
    Ok(())
}

// Appends a record's last number and the end of the record.
fn push_last(file: &mut Vec<u8>, number: u64) -> Result<(), NoMemory>
    ensures { OnOk result (file.new.items ≡ file.old.items ++ decimal number ++ codes "\r\n") }
{
    let mut digits = itoa::Buffer::new();
    file.extend_from_slice(digits.format(number).as_bytes())?;
    file.extend_from_slice(b"\r\n")?;
    Ok(())
}

/// Appends the record of a product.
pub fn push_product(file: &mut Vec<u8>, i: u64) -> Result<(), NoMemory>
    ensures { OnOk result (file.new.items ≡ file.old.items ++ record_text (map decimal (product i))) }
{
    push_field(file, i)?;
    push_last(file, i % 4)
}

// An item with an even index has one of ten products that sell often. The other items take all products in turn.
fn product_of_item(i: u64) -> u64
    ensures { result ≡ product_of i }
{
    let pair = i / 2;
    if i % 2 == 0 {
        pair % 10
    } else {
        pair % PRODUCTS
    }
}

/// Appends the record of an item.
pub fn push_item(file: &mut Vec<u8>, number: u32, i: u64) -> Result<(), NoMemory>
    requires { i < ITEMS }
    ensures { OnOk result (file.new.items ≡ file.old.items ++ record_text (map decimal (item number i))) }
{
    push_field(file, (3 * i + u64::from(number)) % ORDERS)?;
    push_last(file, product_of_item(i))
}

/// Appends the record of an order.
pub fn push_order(file: &mut Vec<u8>, number: u32, i: u64) -> Result<(), NoMemory>
    requires { i < ORDERS }
    ensures { OnOk result (file.new.items ≡ file.old.items ++ record_text (map decimal (order number i))) }
{
    push_field(file, i)?;
    push_field(file, (7 * i + u64::from(number)) % CUSTOMERS)?;
    push_last(file, i % 100)
}

/// Appends the record of a customer.
pub fn push_customer(file: &mut Vec<u8>, number: u32, i: u64) -> Result<(), NoMemory>
    requires { i < CUSTOMERS }
    ensures { OnOk result (file.new.items ≡ file.old.items ++ record_text (map decimal (customer number i))) }
{
    push_field(file, i)?;
    push_last(file, (i + u64::from(number)) % 10)
}
