// What a program for Ray begins with.

/// The calls of Ray.
pub const RAY: &str = r#"#!/usr/bin/env python3
"""A script of tasks on Ray, written by `raysim export`. It was tried on a stand-in for Ray, and never on Ray itself.

It prints what main prints and how main ended, as `raysim serial` does. Its status is 0 where main ended with a value,
1 where it ended with a trap, and 2 where the engine failed: then the engine's own words stand on standard error.
"""

import argparse
import sys
from contextlib import suppress

import ray

TIMEOUT = None


# The engine.


def start_engine(options):
    """Joins the cluster that is named, else starts one on this machine."""
    if options.scheduler is not None:
        return ray.init(address=options.scheduler)
    return ray.init(num_cpus=options.workers)


def stop_engine(engine):
    ray.shutdown()


def as_task(function):
    return ray.remote(function)


def submit(task, retries, arguments):
    """Begins a task. The engine dereferences the futures among its arguments, but not what is in a `Reference`."""
    return task.options(max_retries=retries).remote(*arguments)


def submit_for_several(task, count, retries, arguments):
    """Begins a task of several results, each of which is an object of its own."""
    return task.options(max_retries=retries, num_returns=count).remote(*arguments)


def store(value):
    """Makes an object of a value."""
    return ray.put(value)


def wait_for(future):
    """What a future stands for."""
    return ray.get(future, timeout=TIMEOUT)


"#;
