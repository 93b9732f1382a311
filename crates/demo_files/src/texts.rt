//! The schema of the shop and the query over it.
ghost use Rattle.std.specs.Prelude.{◌≡◌, IfOk};
ghost use Rattle.demo_files.specs.Texts.{query_text, schema_text};

use base_io::{NoMemory, Seq};
use std::alloc::Global;

const SCHEMA: &[u8] = b"CREATE TABLE PRODUCT (ID INTEGER PRIMARY KEY, KIND INTEGER NOT NULL);
CREATE TABLE ITEM (ORDER_ID INTEGER NOT NULL, PRODUCT INTEGER NOT NULL);
CREATE TABLE ORDERS (ID INTEGER PRIMARY KEY, CUSTOMER INTEGER NOT NULL, DAYNO INTEGER NOT NULL);
CREATE TABLE CUSTOMER (ID INTEGER PRIMARY KEY, REGION INTEGER NOT NULL);
";

const QUERY: &[u8] = b"SELECT C.ID, O.ID, P.ID
FROM PRODUCT P JOIN ITEM I ON I.PRODUCT = P.ID
JOIN ORDERS O ON O.ID = I.ORDER_ID
JOIN CUSTOMER C ON C.ID = O.CUSTOMER
WHERE C.REGION = 3 AND P.KIND = 0 AND O.DAYNO BETWEEN 25 AND 49
";

#[tactic(auto, unfolding(crate::specs::Texts::schema_text))]
pub fn schema_sql(alloc: Global) -> Result<Seq<u8>, NoMemory>
    ensures { IfOk result (λ file. file ≡ schema_text) }
{
    let file = Vec::from_slice(alloc, SCHEMA)?;
    Ok(Seq::from_vec(file))
}

#[tactic(auto, unfolding(crate::specs::Texts::query_text))]
pub fn query_sql(alloc: Global) -> Result<Seq<u8>, NoMemory>
    ensures { IfOk result (λ file. file ≡ query_text) }
{
    let file = Vec::from_slice(alloc, QUERY)?;
    Ok(Seq::from_vec(file))
}
