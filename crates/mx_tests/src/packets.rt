//! The sources of three modules: a driver sends packets to a protocol module, which sums each and has a console module
//! write a line.

/// Sends 350 packets and leaves.
pub const DRIVER: &str =
    "# Sends 350 packets of four words to the protocol module, and leaves with 0.
.text 0x80000000
start:
    li s0, 350
next:
    addi a0, zero, 4
    addi a7, zero, 6
    ecall                   # alloc of four words
    addi s1, a0, 0
    sw s0, 0(s1)
    slli t0, s0, 1
    sw t0, 4(s1)
    xori t0, s0, -1
    sw t0, 8(s1)
    addi t0, zero, 7
    sw t0, 12(s1)
    addi a1, zero, 16
    addi a2, zero, 2
    addi a3, zero, 1
    addi a7, zero, 3
    ecall                   # grant of read to the protocol module
    addi a0, s1, 0
    lui t0, 0x80010
    jalr ra, 0(t0)          # receive
    addi a0, s1, 0
    addi a7, zero, 7
    ecall                   # free
    addi s0, s0, -1
    bne s0, zero, next
    addi a0, zero, 0
    addi a7, zero, 1
    ecall                   # exit
idle:
    jal zero, idle
.data 0x80001000
table: .word 1, 2, 4, 8, start, next
.at 0x80002234
";

/// Takes a packet at its gate `receive`.
pub const PROTO: &str = "# Sums a packet's four words and has the console module write a line.
.text 0x80010000
receive:
    addi sp, sp, -16
    sw ra, 0(sp)
    lw t0, 0(a0)
    lw t1, 4(a0)
    add t0, t0, t1
    lw t1, 8(a0)
    add t0, t0, t1
    lw t1, 12(a0)
    add t0, t0, t1
    la t1, sum
    sw t0, 0(t1)
    lui t0, 0x80020
    jalr ra, 0(t0)          # print
    lw ra, 0(sp)
    addi sp, sp, 16
receive_back:
    jalr zero, 0(ra)
idle:
    jal zero, idle
.data 0x80011000
sum: .word 0
.at 0x8001225c
";

/// Writes a line at its gate `print`.
pub const CONSOLE: &str = "# Writes a line.
.text 0x80020000
print:
    la a0, line
    addi a1, zero, 12
    addi a7, zero, 2
    ecall                   # write
print_back:
    jalr zero, 0(ra)
idle:
    jal zero, idle
.data 0x80021000
line: .ascii \"packet done\\n\"
.at 0x8002228c
";
