//! The files of the tables: a header, and then the records. Each record is written directly into the file's bytes.
ghost use Rattle.std.specs.Prelude.{◌≡◌, IfOk};
ghost use Rattle.demo_files.specs.Files.{customer_records, file_text, item_records, order_records, product_records};

use crate::records::{
    CUSTOMERS, ITEMS, ORDERS, PRODUCTS, push_customer, push_item, push_order, push_product,
};
use base_io::{NoMemory, Seq};
use std::alloc::Global;

pub fn product_csv(alloc: Global) -> Result<Seq<u8>, NoMemory>
    ensures { IfOk result (λ file. file ≡ file_text product_records) }
{
    let mut file = Vec::from_slice(alloc, b"ID,KIND\r\n")?;
    for i in 0..PRODUCTS {
        push_product(&mut file, i)?;
    }
    Ok(Seq::from_vec(file))
}

pub fn item_csv(alloc: Global, number: u32) -> Result<Seq<u8>, NoMemory>
    ensures { IfOk result (λ file. file ≡ file_text (item_records number)) }
{
    let mut file = Vec::from_slice(alloc, b"ORDER_ID,PRODUCT\r\n")?;
    for i in 0..ITEMS {
        push_item(&mut file, number, i)?;
    }
    Ok(Seq::from_vec(file))
}

pub fn orders_csv(alloc: Global, number: u32) -> Result<Seq<u8>, NoMemory>
    ensures { IfOk result (λ file. file ≡ file_text (order_records number)) }
{
    let mut file = Vec::from_slice(alloc, b"ID,CUSTOMER,DAYNO\r\n")?;
    for i in 0..ORDERS {
        push_order(&mut file, number, i)?;
    }
    Ok(Seq::from_vec(file))
}

pub fn customer_csv(alloc: Global, number: u32) -> Result<Seq<u8>, NoMemory>
    ensures { IfOk result (λ file. file ≡ file_text (customer_records number)) }
{
    let mut file = Vec::from_slice(alloc, b"ID,REGION\r\n")?;
    for i in 0..CUSTOMERS {
        push_customer(&mut file, number, i)?;
    }
    Ok(Seq::from_vec(file))
}
