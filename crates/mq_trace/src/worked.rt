//! Examples of the tables of ipcs(1): each is proved of the definitions alone.

ghost use Rattle.std.specs.Prelude.{◌≡◌, ◌-◌, ◌^◌, ◌++◌, [], codes, negsuc, pos};
ghost use Rattle.mq_trace.specs.Ipcs.{key_column, limits_table, queue_row, queues_head};
ghost use Rattle.mq_trace.specs.Worked.{second_queue, removed_queue};
ghost use Rattle.mq_trace.specs.declared.ipcs.Keys.TheVariants.{Decimal, Hexadecimal};

/// The names of the columns, each at the left end of its own.
pub fn head_of_a_table()
    ensures { queues_head ≡ codes "\n------ Message Queues --------\n"
        ++ codes "key        msqid      owner      perms      used-bytes   messages    \n" }
{}

/// A key in hexadecimal has eight digits, below zero those of its bits.
pub fn keys_in_both_forms()
    ensures zero { key_column Hexadecimal (pos 0) ≡ codes "0x00000000" }
    ensures each { key_column Hexadecimal (pos 19088743) ≡ codes "0x01234567" }
    ensures minus { key_column Hexadecimal (negsuc 0) ≡ codes "0xffffffff" }
    ensures least { key_column Hexadecimal (negsuc (2 ^ 31 - 1)) ≡ codes "0x80000000" }
    ensures decimal { key_column Decimal (negsuc 6) ≡ codes "-7        " }
{}

/// The second queue of slot 2 has id 66, and one that was removed has no line.
pub fn lines_of_queues()
    ensures decimal { queue_row Decimal 2 second_queue
        ≡ codes "7          66         -          666        13           2           \n" }
    ensures hexadecimal { queue_row Hexadecimal 2 second_queue
        ≡ codes "0x00000007 66         -          666        13           2           \n" }
    ensures removed { queue_row Decimal 2 removed_queue ≡ [] }
{}

/// The limits of a system of 16 slots.
pub fn limits_of_16_slots()
    ensures { limits_table 16
        ≡ codes "\n------ Messages Limits --------\nmax queues system wide = 16\n"
        ++ codes "max size of message (bytes) = 65536\n"
        ++ codes "default max size of queue (bytes) = 131072\n\n" }
{}
