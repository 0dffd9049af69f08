// The C surface of the leaves: size arithmetic, clock, deadlines, slice pool. include/sirqobal.h declares it.
ghost use Rattle.std.specs.Prelude.{◌≡◌};
ghost use Rattle.sizes.specs.Sizes.{is_aligned_to, page_align_up};
ghost use Rattle.clock.specs.Clock.{now_ms, delay_ms, armed, is_due};
ghost use Rattle.refusals.specs.Number.{number_in};
ghost use Rattle.slice_pool.specs.Pool.{alloc_run, free_range};
ghost use Rattle.exports.specs.Exports.{slice_answer};

use refusals::Refusal;

// ---- size arithmetic, clock and deadlines: functions on numbers

#[unsafe(no_mangle)]
pub extern "C" fn sirqobal_is_aligned_to(x: u64, align: u64) -> bool
    ensures { result ≡ is_aligned_to x align }
{
    sizes::bins::is_aligned_to(x, align)
}

#[unsafe(no_mangle)]
pub extern "C" fn sirqobal_page_align_up(page: u64, size: u64) -> u64
    ensures { result ≡ page_align_up page size }
{
    sizes::os::page_align_up(page, size)
}

#[unsafe(no_mangle)]
pub extern "C" fn sirqobal_now_ms(ns: u64) -> u32
    ensures { result ≡ now_ms ns }
{
    clock::now_ms(ns)
}

#[unsafe(no_mangle)]
pub extern "C" fn sirqobal_delay_ms(delay: i64) -> u32
    ensures { result ≡ delay_ms delay }
{
    clock::delay_ms(delay)
}

#[unsafe(no_mangle)]
pub extern "C" fn sirqobal_arm(deadline: u32, due: u32) -> u32
    ensures { result ≡ armed deadline due }
{
    clock::arm(deadline, due)
}

#[unsafe(no_mangle)]
pub extern "C" fn sirqobal_is_due(due: u32, now: u32) -> bool
    ensures { result ≡ is_due due now }
{
    clock::is_due(due, now)
}

// ---- the slice pool

// What alloc_run answers, in numbers: 0 and the address, or the refusal's number and 0.
#[repr(C)]
#[derive(Clone, Copy)]
pub struct SliceAnswer {
    pub number: u32,
    pub address: u64,
}

fn in_numbers(a: Result<u64, Refusal>) -> SliceAnswer
    ensures { result ≡ slice_answer a }
{
    match a {
        Ok(address) => SliceAnswer { number: 0, address },
        Err(why) => SliceAnswer {
            number: u32::from(why),
            address: 0,
        },
    }
}

#[unsafe(no_mangle)]
pub extern "C" fn sirqobal_alloc_run(words: &mut [u32], slices: u64) -> SliceAnswer
    ensures { (result ≡ slice_answer (alloc_run words.old slices).answer) × (words.new ≡ (alloc_run words.old slices).words) }
{
    in_numbers(slice_pool::alloc_run(words, slices))
}

#[unsafe(no_mangle)]
pub extern "C" fn sirqobal_free_range(words: &mut [u32], base: u64, size: u64) -> u32
    ensures { (result ≡ number_in (free_range words.old base size).answer) × (words.new ≡ (free_range words.old base size).words) }
{
    refusals::number_in(slice_pool::free_range(words, base, size))
}
