//! Laws of the shop's files. Each function does nothing, and its contract is the law.
ghost use Rattle.std.specs.Prelude.{◌≡◌, ◌-◌, ◌^◌, ◌∷◌, [], ℕ, Some, codes};
ghost use Rattle.base_io.specs.Files.{answer_about, Present};
ghost use Rattle.csv.specs.Reading.{default_config, records, strip_bom};
ghost use Rattle.demo_files.specs.Files.{customer_records, item_records, order_records, product_records, table_records};
ghost use Rattle.demo_files.specs.Files.{demo_files, file_text};
ghost use Rattle.demo_files.specs.Shop.{customer, customer_columns, item, item_columns, order, order_columns, product, product_columns};
ghost use Rattle.demo_files.specs.Texts.{query_text, schema_text};

/// The first and the last records of the files, proved by computation.
pub fn examples()
    ensures first_products { file_text (table_records product_columns product 2) ≡ codes "ID,KIND\r\n0,0\r\n1,1\r\n" }
    ensures first_items { file_text (table_records item_columns (item 7) 3) ≡ codes "ORDER_ID,PRODUCT\r\n7,0\r\n10,0\r\n13,1\r\n" }
    ensures first_orders { file_text (table_records order_columns (order 7) 2) ≡ codes "ID,CUSTOMER,DAYNO\r\n0,7,0\r\n1,14,1\r\n" }
    ensures first_customers { file_text (table_records customer_columns (customer 7) 2) ≡ codes "ID,REGION\r\n0,7\r\n1,8\r\n" }
    ensures last_product { product 19999 ≡ 19999 ∷ 3 ∷ [] }
    ensures last_item { item 7 399999 ≡ 4 ∷ 19999 ∷ [] }
    ensures last_order { order 7 199999 ≡ 199999 ∷ 0 ∷ 99 ∷ [] }
    ensures last_customer { customer 7 49999 ≡ 49999 ∷ 6 ∷ [] }
    // Items 20 and 21 are pair 10. The first has product 0, one of the ten products that sell often. The second has product 10, since second items
    // take all products in turn.
    ensures often { item 7 20 ≡ 67 ∷ 0 ∷ [] }
    ensures in_turn { item 7 21 ≡ 70 ∷ 10 ∷ [] }
    ensures greatest_number { item (2 ^ 32 - 1) 0 ≡ 167295 ∷ 0 ∷ [] }
{}

/// Each file is found by its name.
pub fn files_by_name()
    ensures schema { (number : ℕ) → answer_about (Some (demo_files number)) (codes "schema.sql") ≡ Present schema_text }
    ensures query { (number : ℕ) → answer_about (Some (demo_files number)) (codes "query.sql") ≡ Present query_text }
    ensures products { (number : ℕ) → answer_about (Some (demo_files number)) (codes "product.csv") ≡ Present (file_text product_records) }
    ensures items { (number : ℕ) → answer_about (Some (demo_files number)) (codes "item.csv") ≡ Present (file_text (item_records number)) }
    ensures orders { (number : ℕ) → answer_about (Some (demo_files number)) (codes "orders.csv") ≡ Present (file_text (order_records number)) }
    ensures customers { (number : ℕ)
        → answer_about (Some (demo_files number)) (codes "customer.csv") ≡ Present (file_text (customer_records number)) }
{}

/// Reading each table's file as CSV gives the table's records.
pub fn files_are_read_back()
    ensures products { records default_config (strip_bom (file_text product_records)) ≡ product_records }
    ensures items { (number : ℕ) → records default_config (strip_bom (file_text (item_records number))) ≡ item_records number }
    ensures orders { (number : ℕ) → records default_config (strip_bom (file_text (order_records number))) ≡ order_records number }
    ensures customers { (number : ℕ)
        → records default_config (strip_bom (file_text (customer_records number))) ≡ customer_records number }
{}
