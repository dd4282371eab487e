// Threads in the image: a whole record, or the field that is asked for (01, The table).
ghost use Rattle.std.specs.Prelude.{◌≡◌, ◌<◌};
ghost use Rattle.model.specs.Parts.{thread, alter_thread, with_base, with_current, with_quantum, with_left, with_wait, with_limit, with_result, with_delivered};
ghost use Rattle.model.specs.Layout.{view};
ghost use Rattle.fields.specs.Fields.{Alters, standing, quanta, ending};

use crate::places::{Image, THREAD_LENGTH, THREADS};
use model::tables::Thread;
use packed::bytes_of;

const BASE: usize = 1;

const CURRENT: usize = 2;

const QUANTUM: usize = 3;

const LEFT: usize = 5;

const LIMIT: usize = 7;

const RESULT: usize = 11;

const MASK: usize = 12;

const MODE: usize = 14;

const DELIVERED: usize = 15;

// ---- whole

pub fn thread(image: &Image, i: usize) -> Thread
    requires { i < 16 }
    ensures { result ≡ thread i (view image.now) }
{
    let k = THREADS + THREAD_LENGTH * i;
    Thread {
        created: image[k],
        base: image[k + BASE],
        current: image[k + CURRENT],
        quantum: packed::u16_at(image, k + QUANTUM),
        left: packed::u16_at(image, k + LEFT),
        limit: packed::u32_at(image, k + LIMIT),
        result: image[k + RESULT],
        mask: packed::u16_at(image, k + MASK),
        mode: image[k + MODE],
        delivered: packed::u16_at(image, k + DELIVERED),
    }
}

pub fn store(image: &mut Image, i: usize, t: Thread)
    requires { i < 16 }
    ensures { Alters image.old (alter_thread i (λ _. t)) image.new }
{
    packed::copy_at(image, THREADS + THREAD_LENGTH * i, &bytes_of::thread(t));
}

// ---- one field

pub fn created(image: &Image, i: usize) -> u8
    requires { i < 16 }
    ensures { result ≡ (thread i (view image.now)).created }
{
    image[THREADS + THREAD_LENGTH * i]
}

pub fn base(image: &Image, i: usize) -> u8
    requires { i < 16 }
    ensures { result ≡ (thread i (view image.now)).base }
{
    image[THREADS + THREAD_LENGTH * i + BASE]
}

pub fn set_base(image: &mut Image, i: usize, p: u8)
    requires { i < 16 }
    ensures { Alters image.old (alter_thread i (with_base p)) image.new }
{
    image[THREADS + THREAD_LENGTH * i + BASE] = p;
}

pub fn current(image: &Image, i: usize) -> u8
    requires { i < 16 }
    ensures { result ≡ (thread i (view image.now)).current }
{
    image[THREADS + THREAD_LENGTH * i + CURRENT]
}

pub fn set_current(image: &mut Image, i: usize, p: u8)
    requires { i < 16 }
    ensures { Alters image.old (alter_thread i (with_current p)) image.new }
{
    image[THREADS + THREAD_LENGTH * i + CURRENT] = p;
}

pub fn quantum(image: &Image, i: usize) -> u16
    requires { i < 16 }
    ensures { result ≡ (thread i (view image.now)).quantum }
{
    packed::u16_at(image, THREADS + THREAD_LENGTH * i + QUANTUM)
}

pub fn left(image: &Image, i: usize) -> u16
    requires { i < 16 }
    ensures { result ≡ (thread i (view image.now)).left }
{
    packed::u16_at(image, THREADS + THREAD_LENGTH * i + LEFT)
}

pub fn set_left(image: &mut Image, i: usize, x: u16)
    requires { i < 16 }
    ensures { Alters image.old (alter_thread i (with_left x)) image.new }
{
    packed::put_u16(image, THREADS + THREAD_LENGTH * i + LEFT, x);
}

// A new quantum, and what is left of it.
pub fn set_quantum(image: &mut Image, i: usize, quantum: u16, left: u16)
    requires { i < 16 }
    ensures { Alters image.old (alter_thread i (with_quantum quantum left)) image.new }
{
    packed::put_u16(image, THREADS + THREAD_LENGTH * i + QUANTUM, quantum);
    set_left(image, i, left);
}

pub fn limit(image: &Image, i: usize) -> u32
    requires { i < 16 }
    ensures { result ≡ (thread i (view image.now)).limit }
{
    packed::u32_at(image, THREADS + THREAD_LENGTH * i + LIMIT)
}

pub fn set_limit(image: &mut Image, i: usize, x: u32)
    requires { i < 16 }
    ensures { Alters image.old (alter_thread i (with_limit x)) image.new }
{
    packed::put_u32(image, THREADS + THREAD_LENGTH * i + LIMIT, x);
}

pub fn result(image: &Image, i: usize) -> u8
    requires { i < 16 }
    ensures { result ≡ (thread i (view image.now)).result }
{
    image[THREADS + THREAD_LENGTH * i + RESULT]
}

pub fn set_result(image: &mut Image, i: usize, x: u8)
    requires { i < 16 }
    ensures { Alters image.old (alter_thread i (with_result x)) image.new }
{
    image[THREADS + THREAD_LENGTH * i + RESULT] = x;
}

pub fn mask(image: &Image, i: usize) -> u16
    requires { i < 16 }
    ensures { result ≡ (thread i (view image.now)).mask }
{
    packed::u16_at(image, THREADS + THREAD_LENGTH * i + MASK)
}

fn set_mask(image: &mut Image, i: usize, x: u16)
    requires { i < 16 }
    ensures { Alters image.old (alter_thread i (λ t. with_wait t.limit t.result x t.mode t)) image.new }
{
    packed::put_u16(image, THREADS + THREAD_LENGTH * i + MASK, x);
}

pub fn mode(image: &Image, i: usize) -> u8
    requires { i < 16 }
    ensures { result ≡ (thread i (view image.now)).mode }
{
    image[THREADS + THREAD_LENGTH * i + MODE]
}

fn set_mode(image: &mut Image, i: usize, x: u8)
    requires { i < 16 }
    ensures { Alters image.old (alter_thread i (λ t. with_wait t.limit t.result t.mask x t)) image.new }
{
    image[THREADS + THREAD_LENGTH * i + MODE] = x;
}

// Created, base and current as one number, as they stand side by side. A byte of the quantum is read with them, so that it is one reading.
pub fn standing(image: &Image, i: usize) -> u32
    requires { i < 16 }
    ensures { (result ≡ standing (thread i (view image.now))) × (result < 16777216) }
{
    packed::u32_at(image, THREADS + THREAD_LENGTH * i) % 16777216
}

// Quantum and left as one number, as they stand side by side.
pub fn quanta(image: &Image, i: usize) -> u32
    requires { i < 16 }
    ensures { result ≡ quanta (thread i (view image.now)) }
{
    packed::u32_at(image, THREADS + THREAD_LENGTH * i + QUANTUM)
}

// Result, mask and mode as one number, as they stand side by side.
pub fn ending(image: &Image, i: usize) -> u32
    requires { i < 16 }
    ensures { result ≡ ending (thread i (view image.now)) }
{
    packed::u32_at(image, THREADS + THREAD_LENGTH * i + RESULT)
}

// What a wait and its end write.
pub fn set_wait(image: &mut Image, i: usize, limit: u32, res: u8, mask: u16, mode: u8)
    requires { i < 16 }
    ensures { Alters image.old (alter_thread i (with_wait limit res mask mode)) image.new }
{
    set_limit(image, i, limit);
    set_result(image, i, res);
    set_mask(image, i, mask);
    set_mode(image, i, mode);
}

pub fn set_delivered(image: &mut Image, i: usize, x: u16)
    requires { i < 16 }
    ensures { Alters image.old (alter_thread i (with_delivered x)) image.new }
{
    packed::put_u16(image, THREADS + THREAD_LENGTH * i + DELIVERED, x);
}
